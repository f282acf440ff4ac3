// The bytes that are commands, each with what it is decoded to.
use calls::{Command, Control, Load};
use movement::Motion;
use std::{fmt, io};

// What a command is for, in words.
#[derive(Clone, Copy)]
struct Words(Command);

#[derive(Clone, Copy)]
struct Asked(Motion);

#[derive(Clone, Copy)]
struct Switch(Control);

impl fmt::Display for Asked {
    fn fmt<W: fmt::Write>(&self, f: &mut fmt::Formatter<W>) -> fmt::Result {
        match self.0 {
            Motion::Space(lines) => write!(f, "space {lines}"),
            Motion::Skip(channel) => write!(f, "skip {channel}"),
        }
    }
}

impl fmt::Display for Switch {
    fn fmt<W: fmt::Write>(&self, f: &mut fmt::Formatter<W>) -> fmt::Result {
        match self.0 {
            Control::NoOp => write!(f, "no-op"),
            Control::SenseIo => write!(f, "sense"),
            Control::Initialize => write!(f, "initialize"),
            Control::Clear => write!(f, "clear"),
            Control::Block => write!(f, "block"),
            Control::Allow => write!(f, "allow"),
            Control::Select(slot) => write!(f, "select {slot}"),
        }
    }
}

fn load_name(load: Load) -> &'static str {
    match load {
        Load::Fcb => "fcb",
        Load::TranslateTable => "table",
        Load::CopyModification => "copy modification",
        Load::OverlaySequence => "overlay sequence",
        Load::CopyNumber => "copy number",
    }
}

impl fmt::Display for Words {
    fn fmt<W: fmt::Write>(&self, f: &mut fmt::Formatter<W>) -> fmt::Result {
        match self.0 {
            Command::Write(motion) => write!(f, "write {}", Asked(motion)),
            Command::Move(motion) => write!(f, "move {}", Asked(motion)),
            Command::Controls(control) => write!(f, "{}", Switch(control)),
            Command::Loads(load) => write!(f, "load {}", load_name(load)),
            Command::Unlisted => write!(f, "unlisted"),
        }
    }
}

pub fn commands(rt: &impl Print) -> io::Result<()> {
    rt.println("# command: its byte, and what it is for")?;
    for byte in 0..=255u8 {
        let command = refusals::commands::decode(byte);
        if !matches!(command, Command::Unlisted) {
            println!(rt; "command {byte:02X} {}", Words(command))?;
        }
    }
    Ok(())
}
