// Document 01, "Form and forms control".
#![tactic(auto)]

pub mod fcb;

// What one pass over an FCB finds: whether a channel or a spacing is bad, the units in all, whether an edge half inch has a channel,
// the lines that start in the first half inch, and the printable ones.
#[derive(Clone, Copy)]
pub struct Layout {
    pub channel: bool,
    pub spacing: bool,
    pub units: u16,
    pub edge: bool,
    pub top: u16,
    pub lines: u16,
}

// Forms control as a printer has it: the FCB's bytes with 00 after them, and how many they are.
#[derive(Clone, Copy)]
pub struct Forms {
    pub fcb: [u8; Forms::FCB_BYTES],
    pub count: u8,
}

impl Forms {
    // The longest FCB.
    pub const FCB_BYTES: usize = 144;
}

// What is found of an FCB in its array: whether its count and the 00 after it are in range, and the form that it lays out. Both are told of any
// bytes: the layout has its meaning whether the range holds or not, so no Option of it says more.
#[derive(Clone, Copy)]
pub struct Judged {
    pub range: bool,
    pub layout: Layout,
}
