//! Worked examples of conditions, rests, lists of calls and searches: proved from the definitions, and run as tests.
#![tactic(auto)]

ghost use Rattle.worked.specs.Worked.{Worked};

// Worked examples, from the definitions.
pub fn examples_stand()
    ensures { Worked }
{}

#[cfg(test)]
mod tests {
    use left::left;
    use plan::Plan;
    use reading::readings::ClosedReading;
    use records::{Journey, Span};
    use refusals::Refusal;
    use std::process::Abort;
    use std::test::Fail;
    use table_banks::SpanBank;

    // All 64 minutes but minute 5.
    const BUT_5: u64 = u64::MAX - 32;

    // Takes one minute after another from events 1 to 16: 1,024 entries.
    fn fill(plan: &mut Plan) -> Result<(), Refusal> {
        for event in 1..17u16 {
            for minute in 0..64u8 {
                plan.allow(event, !(1u64 << minute))?;
            }
        }
        Ok(())
    }

    #[test]
    fn entry_1024_is_the_last(rt: HostRuntime) {
        let mut plan = Plan::blank();
        assert_eq!(rt; plan.make(64, 256), Ok(()));
        assert_eq!(rt; plan.open(), Ok(()));
        assert_eq!(rt; fill(&mut plan), Ok(()));
        assert_eq!(rt; plan.entries(), 1024);
        assert_eq!(rt; plan.allowed(16), Ok(0));
        assert_eq!(rt; plan.allow(17, BUT_5), Err(Refusal::Full));
        assert_eq!(rt; plan.allow(16, BUT_5), Ok(()));
        assert_eq!(rt; plan.shut(), Ok(()));
        assert_eq!(rt; plan.entries(), 0);
        assert_eq!(rt; plan.allowed(16), Ok(u64::MAX));
        assert_eq!(rt; plan.allow(17, BUT_5), Ok(()));
        assert_eq!(rt; plan.entries(), 0);
    }

    #[test]
    fn level_16_is_the_last(rt: HostRuntime) {
        let mut plan = Plan::blank();
        for _ in 0..16 {
            assert_eq!(rt; plan.open(), Ok(()));
        }
        assert_eq!(rt; plan.open(), Err(Refusal::Level));
        assert_eq!(rt; plan.levels(), 16);
        for _ in 0..16 {
            assert_eq!(rt; plan.shut(), Ok(()));
        }
        assert_eq!(rt; plan.shut(), Err(Refusal::Level));
        assert_eq!(rt; plan.levels(), 0);
    }

    #[test]
    fn a_shut_takes_back_its_level_only(rt: HostRuntime) {
        let mut plan = Plan::blank();
        assert_eq!(rt; plan.make(10, 3), Ok(()));
        assert_eq!(rt; plan.allow(1, 7), Ok(()));
        assert_eq!(rt; plan.open(), Ok(()));
        assert_eq!(rt; plan.allow(1, 3), Ok(()));
        assert_eq!(rt; plan.allow(1, 3), Ok(()));
        assert_eq!(rt; plan.entries(), 1);
        assert_eq!(rt; plan.open(), Ok(()));
        assert_eq!(rt; plan.allow(1, 4), Ok(()));
        assert_eq!(rt; plan.allow(2, 512), Ok(()));
        assert_eq!(rt; plan.allowed(1), Ok(0));
        assert_eq!(rt; plan.entries(), 3);
        assert_eq!(rt; plan.shut(), Ok(()));
        assert_eq!(rt; plan.allowed(1), Ok(3));
        assert_eq!(rt; plan.allowed(2), Ok(1023));
        assert_eq!(rt; plan.entries(), 1);
        assert_eq!(rt; plan.shut(), Ok(()));
        assert_eq!(rt; plan.allowed(1), Ok(7));
    }

    #[test]
    fn refusals_come_in_order(rt: HostRuntime) {
        let mut plan = Plan::blank();
        assert_eq!(rt; plan.make(65, 3), Err(Refusal::Range));
        assert_eq!(rt; plan.make(10, 257), Err(Refusal::Range));
        assert_eq!(rt; plan.events(), 1);
        assert_eq!(rt; plan.make(10, 3), Ok(()));
        assert_eq!(rt; plan.allow(0, 1024), Err(Refusal::Range));
        assert_eq!(rt; plan.allow(0, 1), Err(Refusal::Event));
        assert_eq!(rt; plan.allow(4, 1), Err(Refusal::Event));
        assert_eq!(rt; plan.allowed(4), Err(Refusal::Event));
    }

    // Of the ring of three events with event 1 allowed minute 0 only, minutes 8 and 9 are left of event 3.
    fn left_of_ring(rt: &impl Abort, reading: &ClosedReading, spans: &[Span]) {
        let mut bank = SpanBank::blank();
        assert_eq!(rt; bank.fill(reading, spans), Ok(()));
        let mut plan = Plan::blank();
        assert_eq!(rt; plan.make(10, 3), Ok(()));
        let mut workspace = [7; 4097];
        assert_eq!(rt; left(&plan, &bank, 3, &mut workspace), Ok(1023));
        assert_eq!(rt; plan.allow(1, 1), Ok(()));
        assert_eq!(rt; left(&plan, &bank, 3, &mut workspace), Ok(768));
        assert_eq!(rt; left(&plan, &bank, 4, &mut workspace), Err(Refusal::Event));
        assert_eq!(rt; left(&plan, &bank, 4, &mut [7; 4095]), Err(Refusal::Short));
        assert_eq!(rt; (workspace[0], workspace[4095], workspace[4096]), (0, 0, 7));
        assert_eq!(rt; plan.allow(2, 1), Ok(()));
        assert_eq!(rt; left(&plan, &bank, 3, &mut workspace), Ok(0));
        assert_eq!(rt; plan.make(11, 3), Ok(()));
        assert_eq!(rt; left(&plan, &bank, 3, &mut workspace), Err(Refusal::Bank));
    }

    #[test]
    fn left_of_a_ring(rt: HostRuntime) -> Result<(), Fail> {
        let mut spans = [Span::BLANK; 3];
        let mut journeys = [Journey::BLANK; 1];
        let text = b"T;10;3\n1;1;2;3;5;1\n2;2;3;3;5;1\n3;3;1;1;2;1\n";
        let Ok(reading) = ClosedReading::read(text, &mut spans, &mut journeys) else {
            return Err(Fail::new("the text is refused"));
        };
        left_of_ring(&rt, &reading, &spans);
        Ok(())
    }
}
