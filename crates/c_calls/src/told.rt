//! What a call of an exchange tells where it is refused.

ghost use Rattle.c_calls.specs.Told.{done};
ghost use Rattle.c_parts.specs.Fault.{fault_code_of_error, fault_code, line_of_fault};
ghost use Rattle.std.specs.Prelude.{◌≡◌, ◌≢◌};

use c_parts::fault::Fault;
use c_parts::room::copied;
use exchange::ExchangeError;
use std::alloc::Global;

/// Tells of a fault: its number, its line, and its message, where that fits.
pub(crate) fn tell(
    alloc: Global,
    fault: &Fault,
    line: &mut usize,
    message: &mut [u8],
    message_length: &mut usize,
) -> u32
    ensures code { result ≡ fault_code fault.now }
    ensures refused { result ≢ done }
    ensures line { line.new ≡ line_of_fault fault.now }
{
    *line = fault.line();
    if let Ok(text) = fault.message(alloc) {
        let _ = copied(text.as_bytes(), message, message_length);
    }
    fault.code()
}

/// Tells of an error that isn't of a line.
pub(crate) fn tell_error(
    alloc: Global,
    error: ExchangeError,
    message: &mut [u8],
    message_length: &mut usize,
) -> u32
    ensures code { result ≡ fault_code_of_error error }
    ensures refused { result ≢ done }
{
    let mut line = 0;
    tell(
        alloc,
        &Fault::Refused(error),
        &mut line,
        message,
        message_length,
    )
}
