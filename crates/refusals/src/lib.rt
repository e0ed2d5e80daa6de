//! The eight refusals of every call, and the fault that a refused line has.
#![tactic(auto)]

ghost use Rattle.std.specs.Prelude.{◌≡◌, Some, None, MatchResult};
ghost use Rattle.refusals.specs.Refusals.{number_of};

// Why a call was refused. A call runs its tests in this order and answers the first that applies.
#[derive(Clone, Copy, PartialEq, Eq, Debug)]
pub enum Refusal {
    // a line has a wrong number of fields, or a field that is no number
    Form = 1,
    // a line of another kind is due, or a text has no heading
    Turn = 2,
    // a buffer, a list or a table is too short, or a text is too long
    Short = 3,
    // a number other than an event is outside its range, or a minute outside the period
    Range = 4,
    // an event is 0 or above the number of events, or stands twice in one record
    Event = 5,
    // a table or the plan's list of entries has no further place
    Full = 6,
    // no further level can be opened, or none is open
    Level = 7,
    // a bank is too large, or has another period or a longer reach than its caller can take
    Bank = 8,
}

impl Refusal {
    // 1 to 8, in the order in which the tests are made.
    pub fn number(self) -> u8
        ensures { result ≡ number_of self }
    {
        self as u8
    }

    // Refuses for the field that a test has found at fault, if it has found one.
    pub fn blame(self, field: Option<usize>) -> Result<(), Misfit>
        ensures { MatchResult result (λ _. field ≡ None) (λ m. (m.refusal ≡ self) × (field ≡ Some m.field)) }
    {
        match field {
            Some(field) => Err(Misfit {
                refusal: self,
                field,
            }),
            None => Ok(()),
        }
    }
}

// Why a line does not fit: the refusal, and the field at fault, counted from 1 (0 where no field is).
#[derive(Clone, Copy, PartialEq, Eq, Debug)]
pub struct Misfit {
    pub refusal: Refusal,
    pub field: usize,
}

// What is wrong with a line: the refusal, the field at fault, and the line's place in its text, a pair of offset and
// length in bytes.
#[derive(Clone, Copy, PartialEq, Eq, Debug)]
pub struct Fault {
    pub refusal: Refusal,
    pub field: usize,
    pub place: (usize, usize),
}

impl Misfit {
    // The fault of the line at this place.
    pub fn at(self, place: (usize, usize)) -> Fault
        ensures { result ≡ record { refusal = self.refusal; field = self.field; place = place } }
    {
        let Misfit { refusal, field } = self;
        Fault {
            refusal,
            field,
            place,
        }
    }
}

// A line that is refused as a whole.
impl From<Refusal> for Misfit {
    ghost from_gives = { λ r m. m ≡ record { refusal = r; field = 0 } };

    fn from(refusal: Refusal) -> Misfit {
        Misfit { refusal, field: 0 }
    }
}

// A text that is refused as a whole.
impl From<Refusal> for Fault {
    ghost from_gives = { λ r f. f ≡ record { refusal = r; field = 0; place = (0, 0) } };

    fn from(refusal: Refusal) -> Fault {
        Misfit::from(refusal).at((0, 0))
    }
}
