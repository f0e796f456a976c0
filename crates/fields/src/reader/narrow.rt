// A guard over a reader's end.
ghost use Rattle.std.specs.Prelude.{◌≡◌};

// While it stands, the end may be that of one field. When it is let go, on whatever way, the end is the outer one again.
pub struct Narrow<'g> {
    // a plain number: a guard over the whole reader would keep its bytes from being read
    pub end: &'g mut usize,
    pub outer: usize,
}

impl Drop for Narrow<'_> {
    fn drop(self)
        ensures { self.exit.0.now ≡ self.entry.outer }
    {
        *self.end = self.outer;
        let Narrow { end: _, outer: _ } = self;
    }
}
