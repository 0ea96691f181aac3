// What a word that names nothing is read as.
#[derive(Clone, Copy, Debug, PartialEq, Eq)]
pub struct UnknownWord;
