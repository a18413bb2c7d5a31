//! The lines of the cases, and how many passed.

/// How many cases there were.
#[derive(Default, Drop)]
pub struct Tally {
    passed: u32,
    failed: u32,
}

impl Tally {
    fn count(&mut self, passes: bool) {
        let counted = if passes {
            &mut self.passed
        } else {
            &mut self.failed
        };
        *counted = counted.saturating_add(1);
    }

    pub fn print(&self, rt: &HostRuntime) -> anyhow::Result<()> {
        println!(rt; "{} passed, {} failed", self.passed, self.failed)?;
        Ok(())
    }
}

/// The cases of one call on one kind of rows.
#[derive(Drop)]
pub struct Section<'a> {
    rt: &'a HostRuntime,
    tally: &'a mut Tally,
    call: &'a str,
    kind: &'a str,
}

impl<'a> Section<'a> {
    pub fn new(
        rt: &'a HostRuntime,
        tally: &'a mut Tally,
        call: &'a str,
        kind: &'a str,
    ) -> Section<'a> {
        Section {
            rt,
            tally,
            call,
            kind,
        }
    }

    /// Prints the line of a case, and counts it.
    pub fn note(&mut self, name: &str, passes: bool) -> anyhow::Result<()> {
        self.tally.count(passes);
        let verdict = if passes { "pass" } else { "FAIL" };
        println!(self.rt; "{verdict} {} {}: {name}", self.call, self.kind)?;
        Ok(())
    }
}
