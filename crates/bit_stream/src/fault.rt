/// Why no number can be read.
#[derive(Clone, Copy, Debug, Drop, PartialEq, Eq)]
pub enum BitFault {
    /// The bits end before the number does.
    Short,
    /// A number begins with six bits 0, or has more than 56 binary digits, counting from 1.
    Large,
}
