// A reader over the lent bytes of a text, and its place in them: a fault names the place, which the rest of the text alone does not tell.
// That methods keep the text compares two readers, so each promises it: an invariant speaks of one.
ghost use Rattle.std.specs.Prelude.{◌≡◌, ◌≤◌, length};

#[derive(Drop)]
pub struct Reader<'a> {
    pub(crate) text: &'a [u8],
    pub(crate) at: usize,
    ghost within: { at ≤ length text.now },
}

impl<'a> Reader<'a> {
    // A reader at the beginning of the text.
    pub fn new(text: &'a [u8]) -> Reader<'a>
        ensures { (result.at ≡ 0) × (result.text.now ≡ text.now) }
    {
        Reader { text, at: 0 }
    }
}
