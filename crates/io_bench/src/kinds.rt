// The kinds of errors by their names, as the scripts of devices have them.
ghost use Rattle.std.specs.Prelude.{◌≡◌, IfSome, IfNone};
ghost use Rattle.no_std_io2.specs.declared.io.ErrorKind.{ErrorKind as Kind};
ghost use Rattle.io_bench.specs.Kinds.{kind_name};

use no_std_io2::io::ErrorKind;

/// Returns the kind of this name, such as `BrokenPipe`, or `None` if no kind has it. Rust's std has no such call.
pub fn kind_of_name(name: &str) -> Option<ErrorKind>
    ensures kind { IfSome result (λ kind. name.now ≡ kind_name kind) }
    ensures none { IfNone result ((kind : Kind) → name.now ≡ kind_name kind → ⊥) }
{
    match name {
        "NotFound" => Some(ErrorKind::NotFound),
        "PermissionDenied" => Some(ErrorKind::PermissionDenied),
        "ConnectionRefused" => Some(ErrorKind::ConnectionRefused),
        "ConnectionReset" => Some(ErrorKind::ConnectionReset),
        "ConnectionAborted" => Some(ErrorKind::ConnectionAborted),
        "NotConnected" => Some(ErrorKind::NotConnected),
        "AddrInUse" => Some(ErrorKind::AddrInUse),
        "AddrNotAvailable" => Some(ErrorKind::AddrNotAvailable),
        "BrokenPipe" => Some(ErrorKind::BrokenPipe),
        "AlreadyExists" => Some(ErrorKind::AlreadyExists),
        "WouldBlock" => Some(ErrorKind::WouldBlock),
        "InvalidInput" => Some(ErrorKind::InvalidInput),
        "InvalidData" => Some(ErrorKind::InvalidData),
        "TimedOut" => Some(ErrorKind::TimedOut),
        "WriteZero" => Some(ErrorKind::WriteZero),
        "Interrupted" => Some(ErrorKind::Interrupted),
        "Other" => Some(ErrorKind::Other),
        "UnexpectedEof" => Some(ErrorKind::UnexpectedEof),
        "Unsupported" => Some(ErrorKind::Unsupported),
        "OutOfMemory" => Some(ErrorKind::OutOfMemory),
        "Uncategorized" => Some(ErrorKind::Uncategorized),
        _ => None,
    }
}
