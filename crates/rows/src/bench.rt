// The calls that a script's lines stand for, made on the lent stores.
use script::show::{Answer, Change, Feet, Written};
use script::stores::{BUFFER_ROOM, Host, Lent, UNWRITTEN};
use script::words::{Call, GIVEN_ROOM, Line};
use std::io;

// Why a run ends before its script does.
#[derive(Debug, Drop)]
pub enum Stop {
    NotRead,
    NotPrinted(io::Error),
}

impl From<io::Error> for Stop {
    fn from(error: io::Error) -> Stop {
        Stop::NotPrinted(error)
    }
}

// A host's stores, and how much of them the next call is lent.
#[derive(Drop)]
pub struct Bench {
    host: Host,
    lent: Lent,
}

// The call, on what is lent: parts of a local, as parts of a struct that is lent get no proof.
fn make(
    call: Call<'_>,
    state: &mut [u8],
    page: &mut [u8],
    legends: &mut [u8],
    tables: &mut [u8],
    buffer: &mut [u8],
    paper: &mut f64,
) -> u64 {
    match call {
        Call::Start {
            form,
            pitches,
            skip,
        } => trestlepip::trestlepip_start(
            u32::from(form),
            u32::from(pitches[0]),
            u32::from(pitches[1]),
            u32::from(pitches[2]),
            u32::from(pitches[3]),
            u32::from(skip),
            state,
            page,
            legends,
            tables,
        ),
        Call::Compose { copy } => {
            trestlepip::trestlepip_compose(u32::from(copy), buffer, state, page, legends, tables)
        }
        Call::Release => trestlepip::trestlepip_release(state, page, legends, tables),
        Call::Transferred => trestlepip::trestlepip_transferred(state, page, legends, tables),
        Call::Fused => trestlepip::trestlepip_fused(state, page, legends, tables),
        Call::Stacked => trestlepip::trestlepip_stacked(state, page, legends, tables),
        Call::Cancel => trestlepip::trestlepip_cancel(state, page, legends, tables),
        Call::Restart => trestlepip::trestlepip_restart(state, page, legends, tables),
        Call::Feet {
            initial,
            last,
            copies,
            form,
        } => trestlepip::trestlepip_feet(initial, last, copies, form, paper),
        Call::Command { byte, record } => {
            trestlepip::trestlepip_command(byte, record, buffer, state, page, legends, tables)
        }
    }
}

impl Bench {
    pub fn new() -> Bench {
        Bench {
            host: Host::new(),
            lent: Lent::USUAL,
        }
    }

    // One line of the script.
    pub fn obey(&mut self, rt: &impl Print, line: &[u8]) -> Result<(), Stop> {
        let mut room = [0; GIVEN_ROOM];
        match Line::read(line, &mut room).ok_or(Stop::NotRead)? {
            Line::Comment => {}
            Line::Poke(poke) => self.host.poke(poke).ok_or(Stop::NotRead)?,
            Line::Sizes(sizes) => self.lent = self.lent.resized(sizes).ok_or(Stop::NotRead)?,
            Line::BufferSize(size) => {
                self.lent = self.lent.with_buffer(size).ok_or(Stop::NotRead)?;
            }
            Line::Call(call) => self.tell(rt, call)?,
        }
        Ok(())
    }

    // A call, with as much of each store as is to be lent, and its figures.
    fn tell(&mut self, rt: &impl Print, call: Call<'_>) -> io::Result<()> {
        let lent = self.lent;
        let mut now = self.host;
        let mut buffer = [UNWRITTEN; BUFFER_ROOM];
        let mut paper = 1.0;
        let answer = Answer(make(
            call,
            &mut now.state[..lent.state],
            &mut now.page[..lent.page],
            &mut now.legends[..lent.legends],
            &mut now.tables[..lent.tables],
            &mut buffer[..lent.buffer],
            &mut paper,
        ));
        let was = &self.host;
        print!(rt; "{answer}{now}{}", Change { was, now: &now })?;
        rt.print(Written {
            call,
            answer,
            buffer: &buffer,
            page: &now.page,
        })?;
        if let Call::Feet { .. } = call {
            rt.print(Feet(paper))?;
        }
        self.host = now;
        self.lent = Lent::USUAL;
        Ok(())
    }
}
