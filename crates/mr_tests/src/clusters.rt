ghost use Rattle.std.specs.Prelude.{◌≤◌, length};

use crate::shown::push_numbers;
use mr_base::{Answer, Key, Memory, NumKey, Rows, Text};
use mr_combine::{Plain, Point, VecSum};
use mr_container::{Parted, SortedLocal, map_all};
use mr_grid::{Grid, read_grid};
use mr_numeric::{KMeans, Means, kmeans_text, next_means};
use mr_split::spans;
use std::alloc::Global;
use std::test::Fail;

// The keys and answers of a local, in the order in which they are read.
fn shown<L: Parted<Key = NumKey, Value = Point, Fold = VecSum>>(
    alloc: Global,
    local: &L,
) -> Result<Text, Memory> {
    let mut text = Text::new(alloc);
    let mut cursor = local.cursor(0, 1);
    while let Some((key, cell)) = local.next(&mut cursor) {
        key.print(&mut text)?;
        push_numbers::<VecSum, Plain>(alloc, cell, &mut text)?;
        text.push(b"\n")?;
    }
    Ok(text)
}

// The clusters that the points of a grid go to from their first means, each with its number of points and their sums.
fn clustered(alloc: Global, grid: &Grid, clusters: u32) -> Result<Text, Memory>
    requires there { clusters ≤ length grid.now }
    requires few { length grid.now ≤ 134217728 }
{
    let means = Means::first(alloc, grid, clusters)?;
    let job = KMeans::new(grid, &means, spans(grid.rows(), 2));
    let mut local: SortedLocal<NumKey, VecSum> = SortedLocal::new(alloc);
    map_all(alloc, &job, &mut local)?;
    shown(alloc, &local)
}

#[test]
fn nearest_means(rt: HostRuntime) -> Result<(), Fail> {
    let alloc = rt.alloc();
    let cases: [(&[u8], &[u8]); 4] = [
        (b"0\n4\n2\n1\n3\n", b"0 3 3\n1 2 7\n"),
        (b"5\n5\n6\n", b"0 3 16\n"),
        (
            b"-2147483647 1\n2147483647 1\n0 0\n1 0\n",
            b"0 2 -2147483647 1\n1 2 2147483648 1\n",
        ),
        (
            b"0 67108863\n0 -67108864\n9 0\n",
            b"0 2 9 67108863\n1 1 0 -67108864\n",
        ),
    ];
    for (text, want) in cases {
        if let Ok(grid) = read_grid(alloc, text)
            && grid.rows() >= 2
            && grid.rows() <= 100
        {
            assert!(rt; clustered(alloc, &grid, 2)?.as_bytes() == want, "{text:?}");
        } else {
            assert!(rt; false, "{text:?}");
        }
    }
    Ok(())
}

#[test]
fn moved_means(rt: HostRuntime) -> Result<(), Fail> {
    let alloc = rt.alloc();
    if let Ok(grid) = read_grid(alloc, b"1 2\n10 0\n-7 3\n")
        && grid.rows() >= 3
    {
        let means = Means::first(alloc, &grid, 3)?;
        let rows = Rows::from_entries(vec![in alloc;
            (NumKey(0), Answer::two(2, -3)),
            (NumKey(2), Answer::two(3, 8)),
        ]?);
        let next = next_means(alloc, &means, &rows)?;
        let text = kmeans_text(alloc, &next, &rows)?;
        assert!(rt; text.as_bytes() == b"0 2 -2\n1 0 10 0\n2 3 2\n".as_slice());
        assert!(rt; means.same(&means) && !means.same(&next));
    } else {
        assert!(rt; false);
    }
    Ok(())
}
