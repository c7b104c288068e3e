//! What is asked for.

ghost use Rattle.std.specs.Prelude.{◌≡◌};
ghost use Rattle.fluent_cli_words.specs.Given.{format_named};
ghost use Rattle.fluent_cli_words.specs.Words.{beside_names, file_names, reference_names};

/// What is asked for.
#[derive(Drop)]
pub enum Request<'w> {
    Check(CheckRequest<'w>),
    Show(ShowRequest<'w>),
    List(ListRequest<'w>),
}

/// What to check: the files of a language, against those of the language that they were translated from.
#[derive(Drop)]
pub struct CheckRequest<'w> {
    pub language: Option<&'w str>,
    /// Files and folders, as the words name them; none where there is a folder of translations.
    pub files: Vec<&'w str>,
    /// What the files were translated from; one folder where there is a folder of translations.
    pub references: Vec<&'w str>,
    /// Files and folders that are loaded with each of the others, as those of a brand's terms.
    pub beside: Vec<&'w str>,
    /// A folder, of which each file is checked against that of its path in the folder of references.
    pub translation: Option<&'w str>,
    pub format: Format,
    /// Whether only what makes the status 1 is told.
    pub is_quiet: bool,
    /// Whether warnings count as errors do.
    pub is_strict: bool,
    /// Whether each finding is told, also where others have its cause.
    pub is_every: bool,
    /// Whether the line of each finding is shown, with a mark under the place.
    pub has_caret: bool,
    pub has_color: bool,
    /// Whether each file is checked for itself.
    pub is_each: bool,
    /// Whether plural categories of fractions alone are asked for.
    pub has_all_categories: bool,
    /// Functions that the application adds.
    pub functions: Vec<&'w str>,
    /// Kinds of findings that are not told, each one of [`KINDS`].
    pub allowed: Vec<&'w str>,
}

/// How findings are written.
#[derive(Clone, Copy, Debug, PartialEq, Eq)]
pub enum Format {
    /// A line for each, to be read.
    Text,
    /// An array of JSON.
    Json,
    /// Commands of a GitHub workflow.
    Github,
    /// The Static Analysis Results Interchange Format.
    Sarif,
}

/// What to show: a message of a file, or of the first of its fallbacks that has it.
#[derive(Drop)]
pub struct ShowRequest<'w> {
    pub language: &'w str,
    pub is_strict: bool,
    /// The file, and after it its fallbacks.
    pub files: Vec<&'w str>,
    /// Files and folders that are loaded with each of the others, as those of a brand's terms.
    pub beside: Vec<&'w str>,
    /// Functions that the application adds.
    pub functions: Vec<&'w str>,
    pub id: &'w str,
    pub attribute: Option<&'w str>,
    pub arguments: Vec<Argument<'w>>,
}

/// What to list.
#[derive(Drop)]
pub struct ListRequest<'w> {
    pub files: Vec<&'w str>,
}

/// An argument of a message.
#[derive(Clone, Copy, Drop)]
pub struct Argument<'w> {
    pub name: &'w str,
    pub value: &'w str,
    /// Whether the value is a text, also where it reads as a number.
    pub is_text: bool,
}

/// A request, or what is said in place of one.
#[derive(Drop)]
pub enum Asked<'w> {
    Request(Request<'w>),
    /// Help or the version: it goes to standard output, and the status is 0.
    Help(String),
    /// What is wrong with the words: it goes to standard error, and the status is 2.
    Fault(String),
}

impl Format {
    /// The format of a name.
    pub fn named(name: &str) -> Option<Format>
        ensures { result ≡ format_named name.now }
    {
        if name == "text" {
            Some(Format::Text)
        } else if name == "json" {
            Some(Format::Json)
        } else if name == "github" {
            Some(Format::Github)
        } else if name == "sarif" {
            Some(Format::Sarif)
        } else {
            None
        }
    }
}

impl<'w> Request<'w> {
    /// The names of its files and folders, without references.
    pub fn file_names(&self) -> &[&'w str]
        ensures { result.now ≡ file_names self.now }
    {
        match self {
            Request::Check(request) => request.files.as_slice(),
            Request::Show(request) => request.files.as_slice(),
            Request::List(request) => request.files.as_slice(),
        }
    }

    /// The names of the files and folders that those were translated from.
    pub fn reference_names(&self) -> &[&'w str]
        ensures { result.now ≡ reference_names self.now }
    {
        match self {
            Request::Check(request) => request.references.as_slice(),
            _ => &[],
        }
    }

    /// The names of the files and folders that are loaded with each of its others.
    pub fn beside_names(&self) -> &[&'w str]
        ensures { result.now ≡ beside_names self.now }
    {
        match self {
            Request::Check(request) => request.beside.as_slice(),
            Request::Show(request) => request.beside.as_slice(),
            Request::List(_) => &[],
        }
    }
}
