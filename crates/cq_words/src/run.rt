// What the commands `run` and `gen` are asked to do.

/// The most that the number of an option may be. The least is 1.
pub const MOST: u64 = 1_000_000_000;

/// How many goals a query may select where nothing else is said.
pub const STEPS: u64 = 1_000_000;

/// How many exchanges one maximisation may make where nothing else is said.
pub const PIVOTS: u64 = 10_000;

/// How many answers a query may write where nothing else is said.
pub const ANSWERS: u64 = 1_000;

/// What `run` is asked to do.
#[derive(Drop)]
pub struct Run<'a> {
    /// How many goals a query may select.
    pub steps: u64,
    /// How many exchanges one maximisation may make.
    pub pivots: u64,
    /// How many answers a query may write.
    pub answers: u64,
    /// The names of the files, in the order in which they are consulted.
    pub files: Vec<&'a str>,
}

/// The greatest number that `gen` takes. The least is 1.
pub const GREATEST: u64 = 200;

/// What the words of a command line ask for.
#[derive(Drop)]
pub enum Task<'a> {
    /// The transcript of files and of the input.
    Run(Run<'a>),
    /// The line of the query for this number.
    Gen(u64),
}
