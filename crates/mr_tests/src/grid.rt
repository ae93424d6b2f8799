use mr_base::Stop;
use mr_grid::{Bitmap, BitmapFault, Grid, GridFault, read_bitmap, read_grid, read_grid_by};
use std::alloc::{AllocError, Global};
use std::test::Fail;

fn fault_in(alloc: Global, text: &[u8]) -> Option<GridFault> {
    match read_grid(alloc, text) {
        Err(Stop::Refused(fault)) => Some(fault),
        Err(Stop::Memory) => None,
        Ok(_) => None,
    }
}

// The numbers of all rows, and their count.
fn numbers_of(alloc: Global, grid: &Grid) -> Result<Vec<i32>, AllocError> {
    let mut numbers = Vec::new(alloc);
    for r in 0..grid.rows() {
        for number in grid.row(r) {
            numbers.push(*number)?;
        }
    }
    Ok(numbers)
}

#[test]
fn grids(rt: HostRuntime) -> Result<(), Fail> {
    let alloc = rt.alloc();
    let cases: [(&[u8], u64, u32, &[i32]); 8] = [
        (b"", 0, 0, &[]),
        (b" \n\t\r\n\r", 0, 0, &[]),
        (b"1 2\n3 4\n", 2, 2, &[1, 2, 3, 4]),
        (b"1 2\n3 4", 2, 2, &[1, 2, 3, 4]),
        (b"1\t-2 \r\n\n  003 4\r", 2, 2, &[1, -2, 3, 4]),
        (
            b"-0\n2147483647\n-2147483647\n",
            3,
            1,
            &[0, 2147483647, -2147483647],
        ),
        (b"00000000000000000000000000000000000007", 1, 1, &[7]),
        (b"5 6 7", 1, 3, &[5, 6, 7]),
    ];
    for (text, rows, columns, numbers) in cases {
        match read_grid(alloc, text) {
            Ok(grid) => {
                assert_eq!(rt; grid.rows(), rows, "{text:?}");
                assert_eq!(rt; grid.columns(), columns, "{text:?}");
                assert!(rt; numbers_of(alloc, &grid)?.as_slice() == numbers, "{text:?}");
            }
            Err(_) => assert!(rt; false, "{text:?}"),
        }
    }
    Ok(())
}

#[test]
fn faults_of_grids(rt: HostRuntime) -> Result<(), Fail> {
    let alloc = rt.alloc();
    let cases: [(&[u8], Option<GridFault>); 14] = [
        (b"1 2\n3\n", Some(GridFault::Ragged(4))),
        (b"1 x\n", Some(GridFault::Number(2))),
        (b"1 2\n1 2\n2147483648 1\n", Some(GridFault::Number(8))),
        (b"1 2\n1 2\n-2147483648 1\n", Some(GridFault::Number(8))),
        (b"1 2\nx y z\n1\n", Some(GridFault::Ragged(4))),
        (b"1 2\n\n3 4 5", Some(GridFault::Ragged(5))),
        (b"1 2\r\n3 4x\r\n", Some(GridFault::Number(7))),
        (b"1\r\r\n", Some(GridFault::Number(0))),
        (b"-", Some(GridFault::Number(0))),
        (b" +1", Some(GridFault::Number(1))),
        (b"--1", Some(GridFault::Number(0))),
        (b"1 2-", Some(GridFault::Number(2))),
        (b"99999999999999999999999999", Some(GridFault::Number(0))),
        (b"1 2\n3 4\n", None),
    ];
    for (text, want) in cases {
        assert_eq!(rt; fault_in(alloc, text), want, "{text:?}");
    }
    Ok(())
}

#[test]
fn the_widest_line(rt: HostRuntime) -> Result<(), Fail> {
    let alloc = rt.alloc();
    let mut text = Vec::new(alloc);
    for _ in 0..1024 {
        text.extend_from_slice(b"1 ")?;
    }
    assert_eq!(rt; fault_in(alloc, text.as_slice()), None);
    text.extend_from_slice(b"x\n")?;
    assert_eq!(rt; fault_in(alloc, text.as_slice()), Some(GridFault::Wide(0)));
    let mut below = Vec::from_slice(alloc, b"1\n")?;
    below.extend_from_slice(text.as_slice())?;
    assert_eq!(rt; fault_in(alloc, below.as_slice()), Some(GridFault::Wide(2)));
    Ok(())
}

// Lines of which some in the middle and the last one are others.
fn twice_broken(alloc: Global, line: &[u8], other: &[u8]) -> Result<Vec<u8>, AllocError> {
    let mut text = Vec::new(alloc);
    for i in 0..8000u32 {
        if i % 3000 == 2999 {
            text.extend_from_slice(other)?;
        }
        text.extend_from_slice(line)?;
    }
    text.extend_from_slice(other)?;
    Ok(text)
}

fn same_grids(one: &Grid, other: &Grid) -> bool {
    let mut same = one.rows() == other.rows() && one.columns() == other.columns();
    for r in 0..one.rows().min(other.rows()) {
        same = same && one.row(r) == other.row(r);
    }
    same
}

#[test]
fn grids_by_several_workers(rt: HostRuntime) -> Result<(), Fail> {
    let alloc = rt.alloc();
    let cases: [(&[u8], &[u8]); 9] = [
        (b"-7 12\n", b"5 6"),
        (b"-7 12\n", b"\n"),
        (b"1 2\r\n\n", b"5 x\n"),
        (b"1 2\r\n\n", b"\r\n5 6\r"),
        (b" \t\n\n\n", b"5 6\r\n"),
        (b" \t\n\n\n", b""),
        (b"30 4\n", b"5\n"),
        (b"3\r\n\r\n", b"5 6 7\n"),
        (b"", b"8 9\n"),
    ];
    for (line, other) in cases {
        let text = twice_broken(alloc, line, other)?;
        let one = read_grid(alloc, &text);
        for workers in [0u32, 1, 2, 3, 4, 32] {
            match (&one, read_grid_by(&rt, alloc, workers, &text)) {
                (Ok(one), Ok(all)) => assert!(rt;
                    same_grids(one, &all),
                    "{line:?} {other:?} {workers}"
                ),
                (Err(Stop::Refused(one)), Err(Stop::Refused(all))) => {
                    assert_eq!(rt; all, *one, "{line:?} {other:?} {workers}")
                }
                _ => assert!(rt; false, "{line:?} {other:?} {workers}"),
            }
        }
    }
    Ok(())
}

#[test]
fn turned_grids(rt: HostRuntime) -> Result<(), Fail> {
    let alloc = rt.alloc();
    let cases: [(&[u8], u64, u32, &[i32]); 3] = [
        (b"1 2\n3 4\n", 2, 2, &[1, 3, 2, 4]),
        (b"1 2 3\n4 5 6\n", 3, 2, &[1, 4, 2, 5, 3, 6]),
        (b"\n", 0, 0, &[]),
    ];
    for (text, rows, columns, numbers) in cases {
        let Ok(grid) = read_grid(alloc, text) else {
            return Err(Fail::from(AllocError));
        };
        if grid.rows() < 4294967296 {
            let turned = grid.turned(alloc)?;
            assert_eq!(rt; turned.rows(), rows, "{text:?}");
            assert_eq!(rt; turned.columns(), columns, "{text:?}");
            assert!(rt;
                numbers_of(alloc, &turned)?.as_slice() == numbers,
                "{text:?}"
            );
        }
    }
    Ok(())
}

// One pixel, with blue 1, green 2 and red 255.
const ONE_PIXEL: [u8; 58] = [
    0x42, 0x4d, 0x3a, 0, 0, 0, 0, 0, 0, 0, 0x36, 0, 0, 0, 0x28, 0, 0, 0, 1, 0, 0, 0, 1, 0, 0, 0, 1,
    0, 0x18, 0, 0, 0, 0, 0, 4, 0, 0, 0, 0, 0, 0, 0, 0, 0, 0, 0, 0, 0, 0, 0, 0, 0, 0, 0, 1, 2, 0xff,
    0,
];

// Where the pixels of that bitmap are.
const WHOLE: Bitmap = Bitmap {
    place: 54,
    width: 1,
    rows: 1,
    stride: 4,
};

#[test]
fn bitmaps(rt: HostRuntime) {
    assert_eq!(rt; read_bitmap(&ONE_PIXEL), Ok(WHOLE));
    for length in 0..58usize {
        let want = if length < 54 {
            BitmapFault::Short
        } else {
            BitmapFault::Pixels
        };
        assert_eq!(rt;
            read_bitmap(&ONE_PIXEL[..length]),
            Err(want),
            "{length} bytes"
        );
    }
}

#[test]
fn faults_of_bitmaps(rt: HostRuntime) {
    let changes = [
        (0, 0x43, BitmapFault::Magic),
        (14, 0x0c, BitmapFault::Header),
        (26, 0x02, BitmapFault::Planes),
        (28, 0x20, BitmapFault::Depth),
        (30, 0x01, BitmapFault::Compressed),
        (18, 0x00, BitmapFault::Width),
        (22, 0x00, BitmapFault::Height),
        (10, 0x35, BitmapFault::Place),
        (10, 0x3b, BitmapFault::Place),
        (10, 0x37, BitmapFault::Pixels),
    ];
    for (place, byte, want) in changes {
        let mut bytes = ONE_PIXEL;
        if place < 58 {
            bytes[place] = byte;
        }
        assert_eq!(rt; read_bitmap(&bytes), Err(want), "place {place}");
    }
}

#[test]
fn sides_of_bitmaps(rt: HostRuntime) {
    let mut top_first = ONE_PIXEL;
    for place in 22..26 {
        top_first[place] = 0xff;
    }
    assert_eq!(rt; read_bitmap(&top_first), Ok(WHOLE));
    let mut largest = ONE_PIXEL;
    let sides = [0xff, 0xff, 0xff, 0x7f, 0, 0, 0, 0x80];
    for i in 0..8usize {
        largest[18 + i] = sides[i];
    }
    assert_eq!(rt; read_bitmap(&largest), Err(BitmapFault::Pixels));
}
