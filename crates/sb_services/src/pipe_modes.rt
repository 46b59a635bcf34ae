// What a pipe is made with.

use sb_base::UnknownNumber;

/// In which direction data go through a pipe (`PIPE_ACCESS_*`).
#[derive(Clone, Copy, Debug, PartialEq, Eq)]
pub enum PipeMode {
    /// From the client to the server.
    Inbound = 1,
    /// From the server to the client.
    Outbound = 2,
    /// Both ways.
    Duplex = 3,
}

/// The mode of a number from 1 to 3, and an error exactly for any other.
impl TryFrom<u64> for PipeMode {
    ghost use Rattle.std.specs.Prelude.{◌≡◌};
    ghost use Rattle.std.specs.Result.{result_ok};
    ghost use Rattle.sb_services.specs.PipeModes.{mode_of};

    type Error = UnknownNumber;

    ghost try_from_gives = { λ number result. result_ok result ≡ mode_of number };

    fn try_from(number: u64) -> Result<PipeMode, UnknownNumber> {
        match number {
            1 => Ok(PipeMode::Inbound),
            2 => Ok(PipeMode::Outbound),
            3 => Ok(PipeMode::Duplex),
            _ => Err(UnknownNumber(number)),
        }
    }
}

/// Whether data are a stream of bytes or of messages (`FILE_PIPE_*_TYPE`).
#[derive(Clone, Copy, Debug, PartialEq, Eq)]
pub enum PipeForm {
    /// Bytes.
    Bytes = 0,
    /// Messages.
    Messages = 1,
}

/// The form of the number 0 or 1, and an error exactly for any other.
impl TryFrom<u64> for PipeForm {
    ghost use Rattle.std.specs.Prelude.{◌≡◌};
    ghost use Rattle.std.specs.Result.{result_ok};
    ghost use Rattle.sb_services.specs.PipeModes.{form_of};

    type Error = UnknownNumber;

    ghost try_from_gives = { λ number result. result_ok result ≡ form_of number };

    fn try_from(number: u64) -> Result<PipeForm, UnknownNumber> {
        match number {
            0 => Ok(PipeForm::Bytes),
            1 => Ok(PipeForm::Messages),
            _ => Err(UnknownNumber(number)),
        }
    }
}
