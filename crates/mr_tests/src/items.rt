ghost use Rattle.std.specs.Prelude.{◌≡◌, ◌≤◌, true, length};
ghost use Rattle.mr_items.specs.LinearRegression.{is_regression_shape};

use crate::shown::show_part;
use mr_base::{Answer, Memory, NumKey, Rows, Text};
use mr_combine::Sum;
use mr_container::{Mapper, SortedLocal, map_all};
use mr_grid::{Grid, read_bitmap, read_grid};
use mr_numeric::{Histogram, Regression, regression_text};
use mr_split::spans;
use std::alloc::Global;
use std::test::Fail;

// The keys and sums of what all tasks of a job emit, ascending.
fn mapped<M: Mapper<Key = NumKey, Value = i64>>(alloc: Global, job: &M) -> Result<Text, Memory> {
    let mut local: SortedLocal<NumKey, Sum> = SortedLocal::new(alloc);
    map_all(alloc, job, &mut local)?;
    let mut text = Text::new(alloc);
    show_part(&local, 0, 1, &mut text)?;
    Ok(text)
}

// A bitmap of two pixels in each of two rows, with two bytes of padding behind each row.
const FOUR_PIXELS: [u8; 70] = [
    0x42, 0x4d, 0x46, 0, 0, 0, 0, 0, 0, 0, 0x36, 0, 0, 0, 0x28, 0, 0, 0, 2, 0, 0, 0, 2, 0, 0, 0, 1,
    0, 0x18, 0, 0, 0, 0, 0, 0x10, 0, 0, 0, 0, 0, 0, 0, 0, 0, 0, 0, 0, 0, 0, 0, 0, 0, 0, 0, 1, 2,
    255, 1, 3, 255, 9, 9, 1, 2, 254, 7, 2, 255, 9, 9,
];

#[test]
fn pixels(rt: HostRuntime) -> Result<(), Fail> {
    let alloc = rt.alloc();
    for chunk in [1, 2, 65536] {
        if let Ok(bitmap) = read_bitmap(&FOUR_PIXELS) {
            let job = Histogram::new(&FOUR_PIXELS, bitmap, spans(bitmap.rows as u64, chunk));
            assert!(rt;
                mapped(alloc, &job)?.as_bytes() == b"1=3 7=1 258=3 259=1 766=1 767=3 ".as_slice()
            );
        }
    }
    Ok(())
}

// The sums of a grid's points, as they are mapped.
fn sums_of(alloc: Global, grid: &Grid, chunk: u32) -> Result<Text, Memory>
    requires shape { is_regression_shape grid.now ≡ true }
    requires few { length grid.now ≤ 134217728 }
    requires chunk { 1 ≤ chunk }
{
    let job = Regression::new(grid, spans(grid.rows(), chunk));
    mapped(alloc, &job)
}

#[test]
fn points(rt: HostRuntime) -> Result<(), Fail> {
    let alloc = rt.alloc();
    let cases: [(&[u8], &[u8]); 4] = [
        (b"", b""),
        (b"1 2\n", b"0=1 1=1 2=2 3=1 4=4 5=2 "),
        (b"1 2\n2 4\n3 6\n", b"0=3 1=6 2=12 3=14 4=56 5=28 "),
        (
            b"-2147483647 1\n3 -5\n",
            b"0=2 1=-2147483644 2=-4 3=4611686014132420618 4=26 5=-2147483662 ",
        ),
    ];
    for (text, want) in cases {
        if let Ok(grid) = read_grid(alloc, text)
            && (grid.rows() == 0 || grid.columns() == 2)
            && grid.rows() <= 100
        {
            assert!(rt; sums_of(alloc, &grid, 2)?.as_bytes() == want, "{text:?}");
        } else {
            assert!(rt; false, "{text:?}");
        }
    }
    Ok(())
}

#[test]
fn texts_of_regressions(rt: HostRuntime) -> Result<(), Fail> {
    let alloc = rt.alloc();
    let none = regression_text(alloc, &Rows::new(alloc))?;
    assert!(rt;
        none.as_bytes()
            == b"n 0\nsx 0\nsy 0\nsxx 0\nsyy 0\nsxy 0\nslope 0/0\nintercept 0/0\n".as_slice()
    );
    let three = Rows::from_entries(vec![in alloc;
        (NumKey(0), Answer::one(3)),
        (NumKey(1), Answer::one(6)),
        (NumKey(2), Answer::one(-12)),
        (NumKey(3), Answer::one(9223372036854775807)),
        (NumKey(5), Answer::one(28)),
    ]?);
    let text = regression_text(alloc, &three)?;
    assert!(rt;
        text.as_bytes()
            == b"n 3\nsx 6\nsy -12\nsxx 9223372036854775807\nsyy 0\nsxy 28\n\
slope 156/27670116110564327385\nintercept -110680464442257309852/27670116110564327385\n"
                .as_slice()
    );
    Ok(())
}
