// Tests of the two schemes through one function that knows only the trait.
// They stand in a crate of their own, so that `schemes` is proved once.
#![tactic(auto)]

#[cfg(test)]
mod tests {
    use schemes::counts::{Tagged, count_good};
    use schemes::keyed::Keyed;
    use schemes::register::{Entry, Register};
    use schemes::{Scheme, SignRefusal};
    use std::process::Abort;
    use std::test::Fail;

    // Signs for boards 3 and 5, and counts the tags of both beside one that is nobody's.
    fn counts_two<S: Scheme>(rt: &impl Abort, scheme: &mut S) -> Result<(), Fail> {
        let no_tag = |_| Fail::new("no tag");
        let third = scheme.sign(3, b"up").map_err(no_tag)?;
        let fifth = scheme.sign(5, b"up").map_err(no_tag)?;
        let tags = [(3, third), (5, fifth), (8, third)].map(|(board, tag)| Tagged { board, tag });
        assert_eq!(rt; count_good(scheme, b"up", &tags), 2);
        Ok(())
    }

    #[test]
    fn register_counts(rt: HostRuntime) -> Result<(), Fail> {
        let mut memory = [Entry::blank(); 2];
        let mut register = Register::new(&mut memory);
        counts_two(&rt, &mut register)?;
        assert!(rt; register.is_spent());
        assert!(rt; register.sign(3, b"up") == Err(SignRefusal::Spent));
        Ok(())
    }

    #[test]
    fn keyed_counts(rt: HostRuntime) -> Result<(), Fail> {
        // Written out in both crates of tests: a call would be no shorter than the value.
        let keys = [
            [7; 16], [6; 16], [5; 16], [4; 16], [3; 16], [2; 16], [1; 16], [0; 16],
        ];
        let mut keyed = Keyed::new(&keys);
        counts_two(&rt, &mut keyed)?;
        assert!(rt; !keyed.is_spent());
        Ok(())
    }
}
