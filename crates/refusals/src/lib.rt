// What every refusal is made of, of sheets and of lines: the refusals and their numbers, and the tests of a number. The order of refusals and the first fault are in specs/.
#![tactic(auto)]

ghost use Rattle.std.specs.Prelude.{◌≡◌};
ghost use Rattle.refusals.specs.Tests.{in_range, same_as};
ghost use Rattle.refusals.specs.Numbers.{number_of};

// The refusals, each with the number that the rules give it.
#[derive(Clone, Copy, PartialEq, Eq)]
pub enum Refusal {
    Length = 1, // of the sheet
    Kind = 2, // no kind of the form, or word 0 names no form
    Repeated = 3, // a kind that an earlier entry names
    Rows = 4, // their number outside the kind's limits
    Place = 5, // of a body, or the bodies' end
    Range = 6, // of a figure
    Minute = 7, // not one more than the row before
    Bound = 8, // of a row difference
    Difference = 9, // not as stated
    Latitude = 10, // outside the rows
    Longitude = 11, // there is none such, or L is beyond the rows
    Easting = 12, // x′ beyond the rows
    Northing = 13, // y outside the rows
    Reduced = 14, // the reduced northing outside the rows
    Float = 15, // no count
    NoRow = 16, // with the correction's minute
    Batch = 17, // odd, too long, or too little room
    Line = 18, // of no known form
}

impl Refusal {
    // The refusal's number.
    pub fn number(self) -> u32
        ensures { result ≡ number_of self }
    {
        self as u32
    }
}

// A fault that was found: the refusal, and the place that has it: a row, or an entry, counted from 0.
#[derive(Clone, Copy)]
pub struct Found {
    pub refusal: Refusal,
    pub place: usize,
}

// Whether x is from least to most.
pub fn in_range(least: i32, x: i32, most: i32) -> bool
    ensures { result ≡ in_range least x most }
{
    (least..=most).contains(&x)
}

// Whether x is y.
pub fn same_as(x: i32, y: i32) -> bool
    ensures { result ≡ same_as x y }
{
    x == y
}
