// The lines of a log, one after another.
ghost use Rattle.session.specs.Lines.{lines};
ghost use Rattle.std.specs.Iterator.{item_count, YieldsFirstRef};

use requests::first_line;

// The lines that are left. The library's `split` would give one more, an empty one, after a last line feed.
#[derive(Drop)]
pub(crate) struct Lines<'a>(pub(crate) &'a [u8]);

impl<'a> Iterator for Lines<'a> {
    type Item = &'a [u8];

    ghost next_gives = { YieldsFirstRef (λ s. lines s.0.now) };

    ghost remaining = { item_count (λ s. lines s.0.now) };

    #[tactic(auto, using(crate::proofs::Cut::lines_cut))]
    fn next(&mut self) -> Option<&'a [u8]> {
        if self.0.is_empty() {
            return None;
        }
        let (line, rest) = first_line(self.0);
        self.0 = rest;
        Some(line)
    }
}
