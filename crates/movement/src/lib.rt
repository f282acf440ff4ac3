// Document 01, "Movement": spacing, skipping, and either on a part of an FCB.
#![tactic(auto)]

ghost use Rattle.std.specs.Prelude.{◌≡◌, ◌<◌, cond, ◌&&◌, ◌+◌, ◌-◌, ◌≤◌, ltb, length, take, drop};
ghost use Rattle.numbers.specs.Sizes.{page_lines};
ghost use Rattle.form.specs.Form.{channel_at, fcb_size};
ghost use Rattle.movement.specs.Movement.{OnForm, round, up_to_first, has, entering, spaced, skipped, moved, is_there, still};

use form::Forms;

// What a command asks of the form: to space so many lines, or to skip to a channel.
#[derive(Clone, Copy)]
pub enum Motion {
    Space(u8),
    Skip(u8),
}

// What a movement does: the lines entered or looked at, the pages completed, the line taken, and what it reports.
#[derive(Clone, Copy)]
pub struct Moved {
    pub lines: u8,
    pub pages: u8,
    pub line: u8,
    pub nine: bool,
    pub twelve: bool,
    pub missed: bool,
}

impl Moved {
    // What Clear makes of a started page: it is completed, with the form at line 1 of the next.
    pub const TOP: Moved = Moved {
        lines: 0,
        pages: 1,
        line: 1,
        nine: false,
        twelve: false,
        missed: false,
    };

    // No movement.
    #[tactic(auto, unfolding(crate::specs::Movement::still))]
    pub fn still(line: u8) -> Moved
        ensures { result ≡ still line }
    {
        Moved {
            lines: 0,
            pages: 0,
            line,
            nine: false,
            twelve: false,
            missed: false,
        }
    }
}

// A line of a form: the bytes of its printable lines, as many as a page has at most, and the current one of them.
#[derive(Clone, Copy)]
pub struct Place<'a> {
    pub lines: &'a [u8],
    pub line: u8,
    pub ghost on_form: { OnForm lines.now line },
}

impl Place<'_> {
    // The last line, P.
    fn last(&self) -> u8
        ensures { result ≡ length self.now.lines.now }
    {
        self.lines.len() as u8
    }

    #[tactic(auto, unfolding(form::specs::Form::channel_at))]
    fn channel_at(&self, line: u8) -> u8
        requires le_line { 1 ≤ line }
        requires line_in_bounds { line ≤ length self.now.lines.now }
        ensures { result ≡ channel_at self.now.lines.now line }
    {
        self.lines[usize::from(line) - 1] % 16
    }

    // A movement that enters one line more, with what its channel reports.
    fn enter(&self, moved: Moved, line: u8) -> Moved
        requires le_line { 1 ≤ line }
        requires line_in_bounds { line ≤ length self.now.lines.now }
        requires lines_fit { moved.lines < 255 }
        ensures { result ≡ entering self.now.lines.now moved line }
    {
        let channel = self.channel_at(line);
        Moved {
            lines: moved.lines + 1,
            line,
            nine: moved.nine | (channel == 9),
            twelve: moved.twelve | (channel == 12),
            ..moved
        }
    }

    // Spaces n lines, one at a time.
    fn space(&self, n: u8) -> Moved
        ensures { result ≡ spaced self.now.lines.now self.now.line n }
    {
        let mut moved = Moved::still(self.line);
        for _ in 0..n {
            if moved.line == self.last() {
                return Moved {
                    pages: 1,
                    ..self.enter(moved, 1)
                };
            }
            moved = self.enter(moved, moved.line + 1);
        }
        moved
    }

    // The line that is `count` lines on, from P round to 1.
    fn line_after(&self, count: u8) -> u8
        requires le_count { 1 ≤ count }
        requires count_le_last { count ≤ length self.now.lines.now }
        ensures value { let below = length self.now.lines.now - self.now.line in
            result ≡ cond (ltb below count) (count - below) (self.now.line + count) }
        ensures some { 1 ≤ result }
        ensures on { result ≤ length self.now.lines.now }
    {
        let below = self.last() - self.line;
        if below < count {
            count - below
        } else {
            self.line + count
        }
    }

    // How many lines a skip looks at: up to the match, all P if there is none.
    pub fn search(&self, channel: u8) -> u8
        ensures { result ≡ length (up_to_first (has self.now.lines.now channel) (round (length self.now.lines.now) self.now.line)) }
    {
        let last = self.last();
        for count in 1..=last {
            let line = self.line_after(count);
            if self.channel_at(line) == channel {
                return count;
            }
        }
        last
    }

    // The last line looked at tells whether one matched.
    fn skip(&self, channel: u8) -> Moved
        ensures { result ≡ skipped self.now.lines.now self.now.line channel }
    {
        let count = self.search(channel);
        let line = self.line_after(count);
        if self.channel_at(line) == channel {
            return Moved {
                lines: count,
                pages: u8::from(self.last() - self.line < count),
                ..Moved::still(line)
            };
        }
        Moved {
            lines: count,
            missed: true,
            ..Moved::TOP
        }
    }

    // T-05: a skip leads to the current line, which has its channel.
    #[tactic(auto, unfolding(crate::specs::Movement::is_there))]
    fn is_there(&self, motion: Motion) -> bool
        ensures { result ≡ is_there self.now.lines.now self.now.line motion }
    {
        match motion {
            Motion::Space(_) => false,
            Motion::Skip(channel) => self.channel_at(self.line) == channel,
        }
    }

    #[tactic(auto, unfolding(crate::specs::Movement::moved))]
    fn move_lines(&self, motion: Motion) -> Moved
        ensures { result ≡ moved self.now.lines.now self.now.line motion }
    {
        match motion {
            Motion::Space(n) => self.space(n),
            Motion::Skip(channel) => self.skip(channel),
        }
    }

    // Where it may, the form stands if it is there.
    fn move_or_stand(&self, may: bool, motion: Motion) -> Moved
        ensures { let ls = self.now.lines.now in let line = self.now.line in
            result ≡ cond (may && is_there ls line motion) (still line) (moved ls line motion) }
    {
        if may && self.is_there(motion) {
            Moved::still(self.line)
        } else {
            self.move_lines(motion)
        }
    }
}

// The printable lines are a part of the FCB: `lines` of them after the first `top`.
pub fn move_form(
    fcb: &[u8; Forms::FCB_BYTES],
    top: u16,
    lines: u16,
    line: u8,
    may: bool,
    motion: Motion,
) -> Moved
    requires lines_bound { top + lines ≤ fcb_size }
    requires lines_le_page_lines { lines ≤ page_lines }
    requires le_line { 1 ≤ line }
    requires line_le_lines { line ≤ lines }
    ensures { let ls = take lines (drop top fcb.now) in
        result ≡ cond (may && is_there ls line motion) (still line) (moved ls line motion) }
{
    let at = usize::from(top);
    let end = at + usize::from(lines);
    let place = Place {
        lines: &fcb[at..end],
        line,
    };
    place.move_or_stand(may, motion)
}
