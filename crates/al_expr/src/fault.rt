use al_values::CastFault;

/// Why an expression has no value on a row: the first fault that evaluation meets.
#[derive(Clone, Copy, Debug, PartialEq, Eq)]
pub enum EvalFault {
    /// A divisor is zero.
    DivZero,
    /// A number outside its kind, or a day outside the years 1 to 9999.
    Range,
    /// A conversion was refused.
    Cast(CastFault),
    /// A text has more than 8,192 bytes.
    TooLong {
        /// How many.
        bytes: u64,
    },
}
