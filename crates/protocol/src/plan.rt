// The plan of a directory: how many machines, coordinators and regions there are, and where each region's copies stand.
ghost use Rattle.std.specs.Prelude.{◌≡◌, length};

mod size;

// The machines with a region's primary, first and second backup copy.
#[derive(Clone, Copy, Debug, Default, PartialEq, Eq)]
pub struct Home {
    pub primary: u8,
    pub first: u8,
    pub second: u8,
}

// `capacity` is the number of places in a log; `start` the version of every word at set-up; `first` the number of each
// coordinator's first transaction. The first `regions` homes count: they are kept by value, since a plan
// asks for no memory of its own, and their number is not bound by its type, since set-up refuses a wrong one with a number.
#[derive(Clone, Copy, Debug, PartialEq, Eq)]
pub struct Plan {
    pub machines: u8,
    pub coordinators: u8,
    pub regions: u8,
    pub capacity: u8,
    pub start: u64,
    pub first: u64,
    pub homes: [Home; 8],
    // an array behind a reference does not bring its length
    pub ghost eight: { length homes ≡ 8 },
}
