// The NMT commands, decoded from their bytes.
ghost use Rattle.nmt.specs.Commands.{Decodes};

// What an NMT frame asks of a node.
#[derive(Clone, Copy)]
pub enum Command {
    Start,
    Stop,
    PreOperational,
    ResetNode,
    ResetCommunication,
}

// A byte that is no command.
#[derive(Clone, Copy)]
pub struct UnknownCommand;

impl TryFrom<u8> for Command {
    type Error = UnknownCommand;

    ghost try_from_gives = { Decodes };

    fn try_from(byte: u8) -> Result<Self, UnknownCommand> {
        match byte {
            1 => Ok(Command::Start),
            2 => Ok(Command::Stop),
            128 => Ok(Command::PreOperational),
            129 => Ok(Command::ResetNode),
            130 => Ok(Command::ResetCommunication),
            _ => Err(UnknownCommand),
        }
    }
}
