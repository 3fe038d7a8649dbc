use crate::{Line, Lines, dotted_pair, dotted_triple, line_after};
use std::alloc::Global;
use tdl_base::NoMemory;

/// The number of a line that is left and how many words it has; zeros where none is left.
fn outline(alloc: Global, line: Option<Line<'_>>) -> Result<(u32, usize), NoMemory> {
    let Some(line) = line else {
        return Ok((0, 0));
    };
    Ok((line.number(), line.words(alloc)?.len()))
}

#[test]
fn passes_over_comments_and_blanks(rt: HostRuntime) -> Result<(), NoMemory> {
    let rows = [
        (b"".as_slice(), 1, (0, 0)),
        (b"\n".as_slice(), 2, (0, 0)),
        (b"# \xff\n \t\r\nbus 20 2".as_slice(), 4, (3, 3)),
        (b"\t#bus\nbus\t20\t 2 \r\n".as_slice(), 3, (2, 3)),
        (b"bus 20 \x7f\n".as_slice(), 2, (1, 0)),
        (b"bus 20 2\r".as_slice(), 2, (1, 0)),
        (b"bus 20 2\r\r\n".as_slice(), 2, (1, 0)),
        (b"bus#\n".as_slice(), 2, (1, 1)),
    ];
    for (bytes, after, first) in rows {
        assert_eq!(rt; line_after(bytes), after, "{bytes:?}");
        let mut lines = Lines::new(bytes);
        let found = outline(rt.alloc(), lines.next())?;
        assert_eq!(rt; found, first, "{bytes:?}");
    }
    Ok(())
}

#[test]
fn tells_how_many_dots_a_word_has(rt: HostRuntime) {
    let rows = [
        (b"M".as_slice(), false, false),
        (b"M.s".as_slice(), true, false),
        (b".".as_slice(), true, false),
        (b"M.t.o".as_slice(), false, true),
        (b"..".as_slice(), false, true),
        (b"M.t.o.p".as_slice(), false, false),
    ];
    for (word, pair, triple) in rows {
        assert_eq!(rt; dotted_pair(word).is_some(), pair, "{word:?}");
        assert_eq!(rt; dotted_triple(word).is_some(), triple, "{word:?}");
    }
}
