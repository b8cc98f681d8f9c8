//! Why a hypercall was refused.
ghost use Rattle.std.specs.Prelude.{◌≡◌, pos};
ghost use Rattle.argo_base.specs.Errno.{number_of};

/// Why a hypercall was refused: the names of Xen's errno.h without the leading E.
#[derive(Clone, Copy, Debug, PartialEq, Eq)]
pub enum Errno {
    Perm,
    NoEnt,
    Srch,
    Again,
    Acces,
    Fault,
    Busy,
    Exist,
    NoDev,
    Inval,
    NoSpc,
    MsgSize,
    OpNotSupp,
    ConnRefused,
}

impl Errno {
    /// The number in Xen's errno.h. A hypercall replies minus this number.
    pub fn number(self) -> i32
        ensures { result ≡ pos (number_of self) }
    {
        match self {
            Errno::Perm => 1,
            Errno::NoEnt => 2,
            Errno::Srch => 3,
            Errno::Again => 11,
            Errno::Acces => 13,
            Errno::Fault => 14,
            Errno::Busy => 16,
            Errno::Exist => 17,
            Errno::NoDev => 19,
            Errno::Inval => 22,
            Errno::NoSpc => 28,
            Errno::MsgSize => 90,
            Errno::OpNotSupp => 95,
            Errno::ConnRefused => 111,
        }
    }
}
