// Tests of the edges of what is granted, over every kind.
#![tactic(auto)]

#[cfg(test)]
mod tests {
    use field::element::P;
    use kinds::denial::Denial;
    use kinds::drill::Drill;
    use kinds::kind::Kind;
    use rpo_kinds::rpo128::Rpo128;
    use rpo_kinds::rpo160::Rpo160;
    use sponge::digest::digest;
    use std::alloc::Global;
    use std::test::Fail;

    // The digest of the words into that much room is answered as it should be, and written exactly where it is granted: none of
    // the digests here is all nines.
    fn check_answer<K: Kind>(
        heap: Global,
        kind: &K,
        words: &[u64],
        room: usize,
        want: Result<(), Denial>,
    ) -> Result<(), Fail> {
        let nines = vec![in heap; 9u64; room]?;
        let mut out = vec![in heap; 9u64; room]?;
        let got = digest(kind, words, &mut out);
        if got != want {
            Err(Fail::new(format_args!("{got:?} is not {want:?}")))
        } else if (out == nines) != want.is_err() {
            Err(Fail::new(format_args!("{got:?} leaves another buffer")))
        } else {
            Ok(())
        }
    }

    fn lengths<K: Kind>(heap: Global, kind: &K) -> Result<(), Fail> {
        let w = K::DIGEST;
        let r = K::rate();
        for n in [1, r - 1, r, r + 1, 2 * r, 4096] {
            let words = vec![in heap; P - 1; n]?;
            check_answer(heap, kind, &words, w, Ok(()))?;
        }
        for n in [0, 4097] {
            let words = vec![in heap; P; n]?;
            check_answer(heap, kind, &words, w + 1, Err(Denial::BadLength))?;
        }
        let mut words = vec![in heap; P; r]?;
        check_answer(heap, kind, &words, w + 1, Err(Denial::BadBuffer))?;
        check_answer(heap, kind, &words, w, Err(Denial::NotElement(0)))?;
        for i in 0..r - 1 {
            words[i] = P - 1;
        }
        check_answer(heap, kind, &words, w, Err(Denial::NotElement(r - 1)))
    }

    #[test]
    fn drill_lengths(rt: HostRuntime) -> Result<(), Fail> {
        lengths(rt.alloc(), &Drill)
    }

    #[test]
    fn rpo_lengths(rt: HostRuntime) -> Result<(), Fail> {
        lengths(rt.alloc(), &Rpo128::new())?;
        lengths(rt.alloc(), &Rpo160::new())
    }
}
