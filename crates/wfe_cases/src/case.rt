// A case: what a command is given, and what it is to print.

/// A folder of cases. Each case is two files of one name, one for the input and one for what is due, told apart by their endings.
#[derive(Clone, Copy)]
pub struct Kind {
    pub folder: &'static str,
    pub input: &'static str,
    pub due: &'static str,
    /// Whether the input is the words of the command, one a line. Else the command is the folder's name, and the input is what it reads.
    pub has_words: bool,
}

/// A case, with its files' bytes. One that is not there is none.
#[derive(Drop)]
pub struct Case {
    pub name: String,
    pub input: Option<Vec<u8>>,
    pub due: Option<Vec<u8>>,
}
