//! Why a row does not print its result.
/// Why a row has no result.
#[derive(Clone, Copy)]
pub(crate) enum Miss {
    /// Memory was refused to code before or after the call.
    OtherCall,
    /// The call returned neither its result nor a refusal, or was refused a second time.
    Wrong,
    /// No row has this name.
    NoRow,
}

impl Miss {
    /// Returns the word that is printed instead of the result.
    pub(crate) fn name(self) -> &'static str {
        match self {
            Miss::OtherCall => "other call",
            Miss::Wrong => "wrong",
            Miss::NoRow => "no row",
        }
    }
}
