ghost use Rattle.std.specs.Prelude.{◌≡◌};
ghost use Rattle.entries.specs.Verdicts.{Headed};

use crate::heading::Heading;
use crate::numerals::Numerals;
use crate::tests::{form_fault, heading_fault};
use refusals::{Misfit, Refusal};
use text::kind::Kind;

impl Heading {
    pub fn period(&self) -> u8
        ensures { result ≡ self.now.period }
    {
        self.period
    }

    pub fn events(&self) -> u16
        ensures { result ≡ self.now.events }
    {
        self.events
    }

    // The heading that a line is, or the first refusal that applies, with the field at fault.
    pub fn read(line: &[u8]) -> Result<Heading, Misfit>
        ensures { Headed line.now result }
    {
        let kind = Kind::of(line);
        let n = Numerals::of(kind, line);
        Refusal::Form.blame(form_fault(kind, &n))?;
        let Kind::Heading = kind else {
            return Err(Misfit::from(Refusal::Turn));
        };
        let [period, events, ..] = n.values;
        Refusal::Range.blame(heading_fault(period, events))?;
        Ok(Heading {
            period: period as u8,
            events: events as u16,
        })
    }
}
