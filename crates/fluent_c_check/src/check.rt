//! What a check answers.
ghost use Rattle.std.specs.Prelude.{◌≡◌, IfErr, IfOk};
ghost use Rattle.fluent_c_check.specs.Checks.{ChecksSources, Refuses, status_of};
ghost use Rattle.fluent_c_check.specs.Inside.Handed.{ReportsOn, wanted_by};

use crate::handed::{Bytes, CheckFault, handed_in};
use crate::report::{Report, report_of};
use fluent_answers::Fault;
use fluent_c_handles::put_text;
use std::alloc::{AllocError, Global};

/// What a check tells beside its text.
#[derive(Clone, Copy, Debug, Drop, PartialEq, Eq)]
#[repr(C)]
pub struct Checked {
    /// How many bytes the text has.
    pub text: usize,
    /// How many of the findings are errors.
    pub errors: usize,
    /// How many are warnings.
    pub warnings: usize,
    /// Whether the linter finds nothing, so that no text of the sources ever shows an error.
    pub is_clean: bool,
}

/// What is told where nothing was checked.
const NOTHING: Checked = Checked {
    text: 0,
    errors: 0,
    warnings: 0,
    is_clean: false,
};

/// The status of a fault.
fn status(fault: CheckFault) -> u8
    ensures { result ≡ status_of fault }
{
    match fault {
        CheckFault::Language => 4,
        CheckFault::Records(Fault::Cut) => 9,
        CheckFault::Records(Fault::NotText) => 10,
        CheckFault::Records(Fault::Memory) => 2,
        CheckFault::Memory => 2,
    }
}

/// The report on bytes.
///
/// # Errors
///
/// As [`CheckFault`] says.
fn report_on(alloc: Global, bytes: &Bytes<'_>, as_json: bool) -> Result<Report, CheckFault>
    ensures ok { IfOk result (ReportsOn bytes.now as_json) }
    ensures err { IfErr result (Refuses (wanted_by bytes.now)) }
{
    let handed = handed_in(alloc, bytes)?;
    match report_of(alloc, &handed, as_json) {
        Ok(report) => Ok(report),
        Err(AllocError) => Err(CheckFault::Memory),
    }
}

/// Tells what is wrong in sources, which count as one: a line for each finding, or a list in JSON; how many errors and warnings
/// there are; and whether the linter finds nothing, so that no text of the sources ever shows an error.
///
/// `sources`, `beside` and `references` are records, of which each is a source by its name and its text: those that are checked,
/// those that are loaded before them, and those that they were translated from, if any. Each name of the records `functions` is a
/// function of the program. Where `language` is empty no plural categories are looked at.
///
/// 0: `out` begins with the text. 1: it has no room, and stays; `told` is there. Else nothing is given: 2, an allocation failed; 4,
/// the language is not UTF-8, which is told first; of the first run of records that can't be read: 9, it is cut short, or a record
/// begins with no kind of value; 10, a name or a text is not UTF-8.
pub fn check_sources(
    alloc: Global,
    language: &[u8],
    sources: &[u8],
    beside: &[u8],
    references: &[u8],
    functions: &[u8],
    as_json: bool,
    out: &mut [u8],
    told: &mut Checked,
) -> u8
    ensures { ChecksSources language.now sources.now beside.now references.now functions.now as_json out told result }
{
    let room = out.len();
    let bytes = Bytes {
        language,
        sources,
        beside,
        references,
        functions,
    };
    match report_on(alloc, &bytes, as_json) {
        Ok(report) => {
            let needed = put_text(report.text.as_str(), out);
            *told = Checked {
                text: needed,
                errors: report.counts.errors,
                warnings: report.counts.warnings,
                is_clean: report.is_clean,
            };
            if needed <= room { 0 } else { 1 }
        }
        Err(fault) => {
            *told = NOTHING;
            status(fault)
        }
    }
}
