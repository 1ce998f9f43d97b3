// A block is a line with its title, then a script; an empty line ends it.
ghost use Rattle.std.specs.Prelude.{◌≤◌, ◌<◌, length};
ghost use Rattle.std.specs.Iterator.{at_most};

// The blocks of a text, each with its title and its script.
#[derive(Drop)]
pub(crate) struct Blocks<'a>(pub(crate) &'a [u8]);

// How many bytes the first line has, with the byte that ends it.
fn first_line(text: &[u8]) -> usize
    ensures bound { result ≤ length text.now }
    ensures progress { 0 < length text.now → 0 < result }
{
    text.iter()
        .position(|byte| *byte == b'\n')
        .map_or(text.len(), |newline| newline + 1)
}

// How many bytes the first block has, without the empty line that ends it.
fn first_block(text: &[u8]) -> usize
    ensures bound { result ≤ length text.now }
    ensures progress { 0 < length text.now → 0 < result }
{
    text.windows(2)
        .position(|pair| pair == b"\n\n".as_slice())
        .map_or(text.len(), |at| at + 1)
}

impl<'a> Iterator for Blocks<'a> {
    type Item = (&'a [u8], &'a [u8]);

    ghost remaining = { λ s. at_most (length s.0.now) };

    fn next(&mut self) -> Option<(&'a [u8], &'a [u8])> {
        if self.0.is_empty() {
            return None;
        }
        let (block, behind) = self.0.split_at(first_block(self.0));
        self.0 = behind.get(1..).unwrap_or(&[]);
        Some(block.split_at(first_line(block)))
    }
}
