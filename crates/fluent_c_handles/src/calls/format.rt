//! Formats messages.
ghost use Rattle.std.specs.Prelude.{◌≡◌};
ghost use Rattle.fluent_answers.specs.Answered.{AllAgree};
ghost use Rattle.fluent_c_handles.specs.Answers.{SlotGivesTexts, WhenOpen, bundle_view, kept_in};
ghost use Rattle.fluent_c_handles.specs.Inside.Asking.{FormatsWanted};
ghost use Rattle.fluent_c_handles.specs.Inside.Into.{GivesOpen, IsFitStatus, UnaskedInto};
ghost use Rattle.fluent_c_handles.specs.Calls.Formatting.{FormatsBy, told_in};

use crate::answer::status;
use crate::asking::{Wanted, asked};
use crate::slot::Slot;
use crate::sources::SourceFault;
use crate::stock::Stock;
use crate::texts::{Form, Lengths, format_in};
use crate::turns::Visit;
use fluent_answers::Meant;
use self_borrow::RawBox;
use std::alloc::Global;

/// The status where no bundle is open.
const CLOSED: u8 = 11;

/// To format the value of a message, or an attribute, by what the caller answered, into its buffers. Each has a lifetime of its own,
/// so that what is left in it is known.
#[derive(Drop)]
struct Format<'w, 'o, 'e> {
    wanted: Wanted<'w>,
    meant: &'w Meant,
    answers: &'w [u8],
    out: &'o mut [u8],
    err: &'e mut [u8],
    sizes: Lengths,
    status: u8,
    ghost agree: { AllAgree meant.now.table answers.now },
}

impl Slot {
    ghost use Rattle.fluent_c_handles.specs.Inside.Visits.{FormatsInto};

    /// Formats the value of a message, or its attribute of a name that is not empty, by what the caller's functions, formatter and
    /// transform answered. The bundle stays. 0: `out` begins with the text, and `err` with what is told of its errors, in the form that is
    /// asked for. 1: a buffer that has no room stays. 14: the caller has to answer before there is a text, and `out` begins with the
    /// question. Else nothing is given, and both lengths are 0: 11, no bundle is open; 7, the id or the name is not UTF-8; 8, there
    /// is no such message, which is told before the arguments are read; 9, these or the answers are cut short, or one begins with no
    /// kind of value; 10, one is not UTF-8; 2, an allocation failed.
    #[inline(always)]
    pub fn format(
        &mut self,
        alloc: Global,
        meant: &Meant,
        form: Form,
        id: &[u8],
        name: &[u8],
        args: &[u8],
        answers: &[u8],
        out: &mut [u8],
        err: &mut [u8],
        sizes: &mut Lengths,
    ) -> u8
        requires { AllAgree meant.now.table answers.now }
        ensures { SlotGivesTexts (WhenOpen (FormatsBy meant.now.table answers.now (told_in form) id.now name.now args.now)) self out err sizes result }
    {
        let wanted = Wanted {
            form,
            id,
            name,
            args,
        };
        let mut format = Format::new(wanted, meant, answers, out, err);
        self.format_by(alloc, &mut format);
        *sizes = format.sizes;
        format.status
    }

    /// Formats so.
    #[inline(always)]
    fn format_by(&mut self, alloc: Global, format: &mut Format<'_, '_, '_>)
        ensures out { format.new.out.ghost_name ≡ format.old.out.ghost_name }
        ensures err { format.new.err.ghost_name ≡ format.old.err.ghost_name }
        ensures does { FormatsInto format.old format.new (kept_in self.old) (kept_in self.new) }
        ensures beside { self.new.beside ≡ self.old.beside }
    {
        self.visit(alloc, format)
    }
}

impl<'w, 'o, 'e> Format<'w, 'o, 'e> {
    /// To format into these buffers.
    fn new(
        wanted: Wanted<'w>,
        meant: &'w Meant,
        answers: &'w [u8],
        out: &'o mut [u8],
        err: &'e mut [u8],
    ) -> Format<'w, 'o, 'e>
        requires { AllAgree meant.now.table answers.now }
        ensures out { result.out.ghost_name ≡ out.entry.ghost_name }
        ensures err { result.err.ghost_name ≡ err.entry.ghost_name }
        ensures wanted { result.wanted ≡ wanted.entry }
        ensures answers { (result.meant ≡ meant.entry) × (result.answers ≡ answers.entry) }
        ensures buffers { (result.out.now ≡ out.old) × (result.err.now ≡ err.old) }
    {
        Format {
            wanted,
            meant,
            answers,
            out,
            err,
            sizes: Lengths { text: 0, errors: 0 },
            status: 0,
        }
    }
}

impl Visit for Format<'_, '_, '_> {
    ghost use Rattle.fluent_c_handles.specs.Inside.Visits.{FormatsInto};

    ghost does = { FormatsInto };

    fn done<'r, 's: 'r>(
        &mut self,
        alloc: Global,
        stock: RawBox<Stock<'r, 's>, Global>,
        is_open: bool,
    ) -> (RawBox<Stock<'r, 's>, Global>, bool) {
        if !is_open {
            self.status = CLOSED;
            self.sizes = Lengths { text: 0, errors: 0 };
            return (stock, false);
        }
        let mut stock = stock.into_box();
        self.status = format_open(
            alloc,
            &mut *stock,
            self.meant,
            self.answers,
            &self.wanted,
            self.out,
            self.err,
            &mut self.sizes,
        );
        (RawBox::of(stock), true)
    }
}

/// Formats a message of a bundle that is open.
fn format_open<'r, 's: 'r>(
    alloc: Global,
    stock: &mut Stock<'r, 's>,
    meant: &Meant,
    answers: &[u8],
    wanted: &Wanted<'_>,
    out: &mut [u8],
    err: &mut [u8],
    sizes: &mut Lengths,
) -> u8
    requires { AllAgree meant.now.table answers.now }
    ensures { GivesOpen (FormatsWanted meant.now.table answers.now wanted.now) stock out err sizes result }
{
    if stock.declared.is_any() {
        asked(alloc, stock, meant, answers, wanted).give(out, err, sizes)
    } else {
        unasked(alloc, stock, wanted, out, err, sizes)
    }
}

/// The text of a message where there is nothing to ask.
fn unasked<'r, 's: 'r>(
    alloc: Global,
    stock: &Stock<'r, 's>,
    wanted: &Wanted<'_>,
    out: &mut [u8],
    err: &mut [u8],
    sizes: &mut Lengths,
) -> u8
    ensures { UnaskedInto wanted.now (bundle_view stock.now.bundle) out err sizes result }
{
    let room = out.len();
    let err_room = err.len();
    match format_in(
        alloc,
        &stock.bundle,
        wanted.form,
        wanted.id,
        wanted.name,
        wanted.args,
        out,
        err,
    ) {
        Ok(lengths) => {
            *sizes = lengths;
            fit_status(lengths, room, err_room)
        }
        Err(fault) => {
            *sizes = Lengths { text: 0, errors: 0 };
            status(SourceFault::Format(fault))
        }
    }
}

/// The status of two texts that were put into buffers of so much room.
fn fit_status(lengths: Lengths, room: usize, err_room: usize) -> u8
    ensures { IsFitStatus lengths room err_room result }
{
    if lengths.text <= room && lengths.errors <= err_room {
        0
    } else {
        1
    }
}
