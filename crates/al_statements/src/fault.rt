/// Why a text is no script: the first token that can't go on in any.
#[derive(Clone, Copy, Debug, PartialEq, Eq)]
pub enum SqlFault {
    /// The token stands where no script has one like it.
    Syntax {
        /// The byte at which it begins; the text's length where the text ends too early.
        at: u32,
    },
    /// The token is one of SQL's that is left out here.
    NotInProfile {
        /// The byte at which it begins.
        at: u32,
    },
}
