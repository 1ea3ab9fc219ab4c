//! Which errors of an accept pass.

ghost use Rattle.std.specs.Prelude.{◌≡◌};
ghost use Rattle.std.specs.IoError.{raw_os_error};
ghost use Rattle.std.specs.List.{list_any};
ghost use Rattle.std.specs.Ordering.{int_eq};
ghost use Rattle.be_door.specs.AcceptErrors.{is_passing};

use std::io;

// Linux's numbers. Its manual, accept(2), says which of them are tried again.
const EPERM: i32 = 1;

const EINTR: i32 = 4;

const EAGAIN: i32 = 11;

const ENOMEM: i32 = 12;

const ENFILE: i32 = 23;

const EMFILE: i32 = 24;

const ENONET: i32 = 64;

const EPROTO: i32 = 71;

const ENOPROTOOPT: i32 = 92;

const EOPNOTSUPP: i32 = 95;

const ENETDOWN: i32 = 100;

const ENETUNREACH: i32 = 101;

const ECONNABORTED: i32 = 103;

const ENOBUFS: i32 = 105;

const EHOSTDOWN: i32 = 112;

const EHOSTUNREACH: i32 = 113;

const PASSING: [i32; 16] = [
    EINTR,
    EAGAIN,
    ENOMEM,
    ENFILE,
    EMFILE,
    ENOBUFS,
    ECONNABORTED,
    EPERM,
    ENONET,
    EPROTO,
    ENOPROTOOPT,
    EOPNOTSUPP,
    ENETDOWN,
    ENETUNREACH,
    EHOSTDOWN,
    EHOSTUNREACH,
];

/// Whether an accept that ended with this error may go well when it is made again. Any other error is of the listener
/// itself, or isn't known.
pub fn is_passing(error: &io::Error) -> bool
    ensures { result ≡ is_passing (raw_os_error error.now) }
{
    match error.raw_os_error() {
        Some(number) => is_among(&PASSING, number),
        None => false,
    }
}

fn is_among(numbers: &[i32], number: i32) -> bool
    ensures { result ≡ list_any (λ x. int_eq x number) numbers.now }
{
    numbers.iter().any(|x| *x == number)
}
