//! What reading a table text answers, on examples: every refusal with its number, detail and word, and each limit from both sides.
#![tactic(auto)]

use refusal::Refusal;
use tabletext::fault::TextFault;
use tabletext::text;
use taskset::draft::Draft;

// The refusal's number and detail, or zeros where the text is read. A refused text has to leave no task: 255 says that one did.
// Numbers and no `Option`, so that a case is one row of a table: no refusal has the number 0 or 255.
fn refusal_of(table: &[u8]) -> (u8, usize) {
    let mut draft = Draft::empty();
    match text::read(table, &mut draft) {
        Ok(()) => (0, 0),
        Err(fault) => {
            if draft.count() == 0 {
                (fault.number(), fault.detail())
            } else {
                (255, 0)
            }
        }
    }
}

// The refusal's word, or an empty one where the text is read, which no refusal has: no `Option`, so that a case is one row of a table.
fn word_of(table: &[u8]) -> &'static str {
    let mut draft = Draft::empty();
    match text::read(table, &mut draft) {
        Ok(()) => "",
        Err(fault) => fault.word(),
    }
}

// Sixteen task lines of 21 bytes each, and one line more at place 336.
// An array, and no `Vec`: a list would need an allocator and an answer for want of memory, and be no plainer.
// In 400 bytes, which is 336 and at most 64 more, and spaces behind them: spaces at a line's end say nothing.
fn sixteen_and(last: &[u8]) -> [u8; 400] {
    let mut bytes = [b' '; 400];
    for (line, letter) in bytes[..336].chunks_exact_mut(21).zip(b'a'..=b'p') {
        line.copy_from_slice(b"task a 1 1 1 0 split\n");
        line[5] = letter;
    }
    let n = last.len().min(64);
    bytes[336..336 + n].copy_from_slice(&last[..n]);
    bytes
}

#[cfg(test)]
mod tests {
    use super::*;
    use std::test::Fail;

    // Each text stands with the number and the detail of its refusal, or zeros. The first that is not refused so, by its place.
    fn first_not_so(cases: &[(&[u8], u8, usize)]) -> Option<usize> {
        cases
            .iter()
            .position(|case| refusal_of(case.0) != (case.1, case.2))
    }

    #[test]
    fn lines_and_bytes(rt: HostRuntime) {
        let cases: [(&[u8], u8, usize); 22] = [
            (b"", 0, 0),
            (b"\n\n   \n# task\n  #x", 0, 0),
            (b"task pick 10 1 10 0 split", 0, 0),
            (b"task pick 10 1 10 0 split\n", 0, 0),
            (b"  task   pick 10 1 10 0 split  ", 0, 0),
            (b"task\tpick", 2, 4),
            (b"# a remark\r\n", 2, 10),
            (b"   \x7f", 2, 3),
            (b"\n\xff", 2, 1),
            (b"#\x80", 2, 1),
            (b"odd\n\t", 3, 0),
            (b"pick", 3, 0),
            (b"12", 3, 0),
            (b"\n  task pick", 3, 1),
            (b"task pick 10 1 10 0", 3, 0),
            (b"task pick 10 1 10 0 split #", 3, 0),
            (b"noleak pick", 3, 0),
            (b"noleak a b c", 3, 0),
            (b"Task pick 10 1 10 0 split", 3, 0),
            (b"tasks pick 10 1 10 0 split", 3, 0),
            (b"task Pick 10 1 10 0 split", 4, 5),
            (b"task #x 10 1 10 0 split", 4, 5),
        ];
        assert_eq!(rt; first_not_so(&cases), None);
    }

    #[test]
    fn words_and_figures(rt: HostRuntime) {
        let cases: [(&[u8], u8, usize); 30] = [
            (b"task abcdefghijklmnop 10 1 10 0 split", 0, 0),
            (b"task abcdefghijklmnopq 10 1 10 0 split", 4, 5),
            (b"task a-0 10 1 10 0 split", 0, 0),
            (b"task -a 10 1 10 0 split", 4, 5),
            (b"task 0a 10 1 10 0 split", 4, 5),
            (b"task 7 10 1 10 0 split", 4, 5),
            (b"task a 0 1 1 0 split", 8, 0),
            (b"task a 00 1 1 0 split", 4, 7),
            (b"task a 0000 1 1 0 split", 4, 7),
            (b"task a 01 1 1 0 split", 4, 7),
            (b"task a 1000000 1 1 0 split", 0, 0),
            (b"task a 1000001 1 1 0 split", 8, 0),
            (b"task a 9999999 1 1 0 split", 8, 0),
            (b"task a 10000000 1 1 0 split", 4, 7),
            (b"task a 1x 1 1 0 split", 4, 7),
            (b"task a 10 x y 21 z", 4, 10),
            (b"task a 10 1 10 01234567 whole", 0, 0),
            (b"task a 10 1 10 21 split", 4, 15),
            (b"task a 10 1 10 00 split", 4, 15),
            (b"task a 10 1 10 8 split", 4, 15),
            (b"task a 10 1 10 79 split", 4, 15),
            (b"task a 10 1 10 0 Split", 4, 17),
            (b"task a 10 1 10 0 wholes", 4, 17),
            (b"task a 100000 60000 100000 0 split", 0, 0),
            (b"task a 100000 60001 100000 0 split", 8, 0),
            (b"task a 10 0 10 0 split", 8, 0),
            (b"task a 10 1 11 0 split", 8, 0),
            (b"task a 10 1 0 0 split", 8, 0),
            (b"\n task a 0 1 1 0 split", 8, 1),
            (b"noleak unknown 9x", 4, 15),
        ];
        assert_eq!(rt; first_not_so(&cases), None);
    }

    #[test]
    fn names_and_the_draft(rt: HostRuntime) {
        let cases: [(&[u8], u8, usize); 9] = [
            (b"task a 10 1 10 0 split\ntask a 10 1 10 0 split", 5, 28),
            (b"task a 10 1 10 0 split\ntask a 0 1 10 0 split", 5, 28),
            (b"task a 10 1 10 0 split\ntask aa 10 1 10 0 split", 0, 0),
            (b"noleak a a", 6, 7),
            (b"task a 10 1 10 0 split\nnoleak a b", 6, 32),
            (b"task a 10 1 10 0 split\nnoleak b a", 6, 30),
            (b"noleak a b\ntask a 10 1 10 0 split", 6, 7),
            (b"task a 10 1 10 0 split\nnoleak a a", 9, 23),
            (
                b"task a 1 1 1 0 split\ntask b 1 1 1 0 split\nnoleak a b\nnoleak a b",
                0,
                0,
            ),
        ];
        assert_eq!(rt; first_not_so(&cases), None);
        let full: [([u8; 400], u8, usize); 5] = [
            (sixteen_and(b""), 0, 0),
            (sixteen_and(b"task q 1 1 1 0 split"), 7, 336),
            (sixteen_and(b"task q 0 1 1 0 split"), 7, 336),
            (sixteen_and(b"task a 1 1 1 0 split"), 5, 341),
            (sixteen_and(b"task Q 1 1 1 0 split"), 4, 341),
        ];
        for case in &full {
            let (number, detail) = refusal_of(&case.0);
            assert_eq!(rt; number, case.1);
            assert_eq!(rt; detail, case.2);
        }
    }

    #[test]
    fn long_texts(rt: HostRuntime) {
        assert_eq!(rt; refusal_of(&[35u8; 8192]).0, 0);
        assert_eq!(rt; refusal_of(&[35u8; 8193]).0, 1);
        assert_eq!(rt; refusal_of(&[35u8; 8193]).1, 8192);
        assert_eq!(rt;
            refusal_of(&[9u8; 8193]).0,
            1,
            "before any line is looked at"
        );
    }

    #[test]
    fn words_for_people(rt: HostRuntime) {
        let a = b"task a 10 1 10 0 split\n";
        assert_eq!(rt; word_of(a), "");
        assert_eq!(rt; word_of(&[35u8; 8193]), "long text");
        assert_eq!(rt; word_of(b"\t"), "stray byte");
        assert_eq!(rt; word_of(b"odd"), "odd line");
        assert_eq!(rt; word_of(b"noleak A b"), "odd word");
        assert_eq!(rt;
            word_of(b"task a 10 1 10 0 split\ntask a 10 1 10 0 split"),
            "twice named"
        );
        assert_eq!(rt; word_of(b"noleak a b"), "unnamed");
        assert_eq!(rt;
            word_of(&sixteen_and(b"task q 1 1 1 0 split")),
            "full table"
        );
        assert_eq!(rt; word_of(b"task a 0 1 1 0 split"), "wild figure");
        assert_eq!(rt; word_of(b"task a 10 1 10 0 split\nnoleak a a"), "itself");
    }

    #[test]
    fn a_floor(rt: HostRuntime) -> Result<(), Fail> {
        let table =
            b"task pick 10 1 10 0 split\n# a remark\ntask seal 20 3 19 13 whole\nnoleak seal pick";
        let mut draft = Draft::empty();
        assert!(rt; text::read(table, &mut draft).is_ok());
        assert_eq!(rt; draft.count(), 2);
        assert!(rt; draft.name(0, table)? == b"pick".as_slice());
        assert!(rt; draft.name(1, table)? == b"seal".as_slice());
        let seal = draft.figures(1)?;
        assert_eq!(rt; seal.period, 20);
        assert_eq!(rt; seal.budget, 3);
        assert_eq!(rt; seal.deadline, 19);
        assert!(rt; seal.ways.contains(1) && seal.ways.contains(3) && !seal.ways.contains(2));
        assert_eq!(rt; draft.has_pair(1, 0), Ok(true));
        assert_eq!(rt; draft.has_pair(0, 1), Ok(false));
        assert!(rt; text::read(b"task pack 10 1 10 0 split", &mut draft).is_ok());
        assert_eq!(rt;
            draft.count(),
            1,
            "a read text takes the place of what was there"
        );
        assert!(rt; text::read(b"odd", &mut draft).is_err());
        assert_eq!(rt; draft.count(), 0, "a refused one leaves nothing");
        Ok(())
    }
}
