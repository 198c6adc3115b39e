//! The status with which the program ends.

/// How a call of the program ended. Its number is the program's exit status.
#[derive(Clone, Copy, Debug, PartialEq, Eq, Drop)]
pub enum Status {
    /// The certificate is valid, or what was asked for was found.
    Done = 0,
    /// A condition of the certificate fails.
    Invalid = 1,
    /// The words are no command.
    Words = 2,
    /// The input is no problem with a certificate behind it.
    Malformed = 3,
    /// A number leaves the range of fractions.
    Overflow = 4,
    /// A degree is greater than 32,767.
    Degree = 5,
    /// The budget of treated pairs is spent.
    Budget = 6,
    /// The source failed.
    ReadFault = 7,
    /// The sink failed.
    WriteFault = 8,
    /// The input is longer than the limit.
    TooLong = 9,
    /// Memory ran out.
    Memory = 12,
}
