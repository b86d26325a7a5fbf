// A case: a day, and a list for it.
use day::Day;

// A list of `count` rows, which no list's length says, since a line of numbers may leave releases or deadlines out.
#[derive(Clone, Copy)]
pub struct Case<'a> {
    pub day: Day,
    pub count: usize,
    pub releases: &'a [u16],
    pub deadlines: &'a [u16],
}

impl Case<'_> {
    // The first starts, one for each job; as many as there are.
    pub(crate) fn claimed<'a>(&self, starts: &'a [u16]) -> &'a [u16] {
        &starts[..starts.len().min(self.count)]
    }
}
