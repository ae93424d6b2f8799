//! What jobs come to on small inputs, as tables of text.
//!
//! A line that begins with `#` has the job file for the lines below it. Any other line is a case: the inputs, between `&` where there are
//! two, the exit code, and what the output holds, or the error output where the run is refused. A `;` stands for a line's end, and `~` for
//! a byte 13.
use crate::gates::NotingGate;
use crate::runs::{ran, ran_on};
use mr_base::{Memory, Status};
use std::alloc::Global;
use std::test::Fail;
use std::thread::Threads;

const LINE_JOBS: &str = "\
#job='word_count';container='hash';capacity=1024;combiner='sum';chunk=1;queue='blocks';
|0|
the cat the dog|0|cat 1;dog 1;the 2;
aa bb|0|aa 1;bb 1;
Don't DON'T|0|don't 2;
b abcdefghz abcdefgh abcdefgha|0|abcdefgh 1;abcdefgha 1;abcdefghz 1;b 1;
#job='word_count';container='hash';capacity=1024;combiner='sum';chunk=1;queue='ranges';
the cat the dog|0|cat 1;dog 1;the 2;
#job='word_count';container='hash';capacity=1024;combiner='sum';chunk=1;queue='deques';
the cat the dog|0|cat 1;dog 1;the 2;
#job='word_count';container='hash';capacity=1024;combiner='sum';chunk=1;
the cat the dog|0|cat 1;dog 1;the 2;
#job='fold_lines';container='hash';capacity=16;combiner='sum';keys='bytes';
a 5;b -2;a -5;|0|a 0;b -2;
k 5;k 3;|0|k 8;
a 9223372036854775807;a -1;|7|fault: over a;
a 9223372036854775807;|0|a 9223372036854775807;
a 1;b x;c;|4|fault: input 1 malformed at 4;
a 1~;~;b 2;|0|a 1;b 2;
a;|4|fault: input 1 malformed at 0;
a 1 2;|4|fault: input 1 malformed at 0;
;;  ;\t;a\t \t-3|0|a -3;
A 1;a 1;|0|A 1;a 1;
é 7;|0|é 7;
a 9223372036854775808;|4|fault: input 1 malformed at 0;
#job='fold_lines';container='hash';capacity=16;combiner='sum';keys='bytes';chunk=1;queue='blocks';
m 3;b -4;zz 1;a 9;b 5;z 0;|0|a 9;b 1;m 3;z 0;zz 1;
#job='fold_lines';container='hash';capacity=16;combiner='buffer';reducer='median';keys='bytes';
k 9;k 1;k 5;k 3;|0|k 3;
k 5;k 3;|0|k 3;
#job='fold_lines';container='hash';capacity=16;combiner='buffer';reducer='list';keys='bytes';
k 5;k 3;k 5;|0|k 3 5 5;
#job='fold_lines';container='hash';capacity=16;combiner='buffer';reducer='distinct';keys='bytes';
k 5;k 3;k 5;|0|k 3 5;
#job='fold_lines';container='hash';capacity=16;combiner='min';keys='bytes';
k 5;k 3;|0|k 3;
#job='fold_lines';container='hash';capacity=16;combiner='max';keys='bytes';
k 5;k 3;|0|k 5;
#job='fold_lines';container='hash';capacity=16;combiner='one';keys='bytes';
k 5;k 3;|0|k 1;
#job='fold_lines';container='hash';capacity=16;combiner='count';keys='bytes';
k 5;k 3;|0|k 2;
#job='fold_lines';container='hash';capacity=16;combiner='and';keys='bytes';
k 5;k 3;|0|k 1;
#job='fold_lines';container='hash';capacity=16;combiner='or';keys='bytes';
k 5;k 3;|0|k 7;
#job='fold_lines';container='hash';capacity=16;combiner='minmax';keys='bytes';
k 5;k 3;|0|k 3 5;
#job='fold_lines';container='hash';capacity=16;combiner='sumcount';keys='bytes';
k 5;k 3;|0|k 8 2;
#job='fold_lines';container='hash';capacity=16;combiner='xor';keys='bytes';
k 5;k 3;|0|k 6;
#job='fold_lines';container='array';capacity=16;combiner='sum';keys='numbers';
15 4;|0|15 4;
40 1;16 1;|5|fault: outside 16;
007 1;7 2;|0|7 3;
-1 5;|4|fault: input 1 malformed at 0;
40 1;x;|4|fault: input 1 malformed at 5;
#job='fold_lines';container='hash';capacity=16;combiner='sum';keys='numbers';chunk=1;
7 9223372036854775807;5 9223372036854775807;6 1;5 1;7 -1;|7|fault: over 5;
#job='fold_lines';container='hash';capacity=16;combiner='min';keys='numbers';
40 1;16 -1;40 -7;|0|16 -1;40 -7;
99999999999999999999 1;|4|fault: input 1 malformed at 0;
#job='inverted_index';container='hash';capacity=64;combiner='buffer';reducer='distinct';
b a;a a;|0|a 0 4;b 0;
Don't;don't x~;|0|don't 0 6;x 6;
#job='inverted_index';container='hash';capacity=64;combiner='buffer';reducer='list';
b a;a a;|0|a 0 4 4;b 0;
#job='string_match';container='array';capacity=16;combiner='count';patterns=['ab','zz','b'];
abab;cab;b;|0|0 2;2 3;
ab ab;zz|0|0 1;1 1;2 1;
a;b|0|2 1;
#job='string_match';container='hash';capacity=16;combiner='one';patterns=[\"b\\r\"];
ab~;b|0|0 1;
";

const GRID_JOBS: &str = "\
#job='linear_regression';container='array';capacity=16;combiner='sum';
1 2;2 4;3 6;|0|n 3;sx 6;sy 12;sxx 14;syy 56;sxy 28;slope 12/6;intercept 0/6;
1 2;|0|n 1;sx 1;sy 2;sxx 1;syy 4;sxy 2;slope 0/0;intercept 0/0;
|0|n 0;sx 0;sy 0;sxx 0;syy 0;sxy 0;slope 0/0;intercept 0/0;
1 2;3;|4|fault: input 1 grid ragged at 4;
1 x;|4|fault: input 1 grid number at 2;
1 2 3;|4|fault: input 1 shape;
2147483647 0;2147483647 0;2147483647 0;|7|fault: over 3;
#job='matrix_product';container='hash';capacity=16;combiner='sum';
1 2;3 4;&5 6;7 8;|0|0 19;1 22;2 43;3 50;
2147483647 2147483647 2147483647;&2147483647;2147483647;2147483647;|7|fault: over 0;
2147483647 2147483647;&2147483647;2147483647;|0|0 9223372028264841218;
1 2;&1;|4|fault: input 2 shape;
1 2;|4|fault: inputs 1 of 2;
&|0|
1;&|4|fault: input 2 shape;
#job='matrix_product';container='array';capacity=16;combiner='sum';
1 2;3 4;&5 6;7 8;|0|0 19;1 22;2 43;3 50;
1;1;1;1;1;&1 1 1 1;|5|fault: outside 16;
";

const ROUND_JOBS: &str = "\
#job='kmeans';container='array';capacity=16;combiner='vecsum';clusters=2;rounds=1;
0;4;2;|0|0 2 1;1 1 4;
5;5;|0|0 2 5;1 0 5;
5;|4|fault: input 1 shape;
|4|fault: input 1 shape;
0;1;2;3;10;11;12;|0|0 1 0;1 6 6;
1 2;3;|4|fault: input 1 grid ragged at 4;
#job='kmeans';container='array';capacity=16;combiner='vecsum';clusters=2;rounds=2;
0;1;2;3;10;11;12;|0|0 4 1;1 3 11;
#job='kmeans';container='array';capacity=16;combiner='vecsum';clusters=2;rounds=9;
0;4;2;|0|0 2 1;1 1 4;
2147483647 -2147483647;-2147483647 2147483647;2147483647 2147483647;|0|0 2 2147483647 0;1 1 -2147483647 2147483647;
#job='kmeans';container='array';capacity=16;combiner='vecsum';clusters=1;rounds=1;
-1;-2;|0|0 2 -2;
#job='kmeans';container='hash';capacity=16;combiner='vecsum';clusters=4;rounds=1000;
1 2;7 -3;4 4;-9 0;|0|0 1 1 2;1 1 7 -3;2 1 4 4;3 1 -9 0;
#job='kmeans';container='hash';capacity=16;combiner='vecsum';clusters=2;rounds=999;
1 -1 0 -1;-1 0 0 0;1 1 1 0;1 0 -1 0;0 0 0 -1;1 0 -1 0;|0|0 1 1 -1 0 -1;1 5 0 0 -1 -1;
#job='kmeans';container='hash';capacity=16;combiner='vecsum';clusters=2;rounds=1000;
1 -1 0 -1;-1 0 0 0;1 1 1 0;1 0 -1 0;0 0 0 -1;1 0 -1 0;|0|0 2 1 0 0 -1;1 4 0 0 -1 -1;
#job='kmeans';container='array';capacity=16;combiner='vecsum';clusters=17;rounds=1;
0;10;20;30;40;50;60;70;80;90;100;110;120;130;140;150;0;4;4;4;|0|0 5 2;1 1 10;2 1 20;3 1 30;4 1 40;5 1 50;6 1 60;7 1 70;8 1 80;\
9 1 90;10 1 100;11 1 110;12 1 120;13 1 130;14 1 140;15 1 150;16 0 0;
#job='kmeans';container='array';capacity=16;combiner='vecsum';clusters=17;rounds=2;
0;10;20;30;40;50;60;70;80;90;100;110;120;130;140;150;0;4;4;4;|5|fault: outside 16;
#job='kmeans';container='hash';capacity=16;combiner='vecsum';clusters=17;rounds=2;
0;10;20;30;40;50;60;70;80;90;100;110;120;130;140;150;0;4;4;4;|0|0 3 4;1 1 10;2 1 20;3 1 30;4 1 40;5 1 50;6 1 60;7 1 70;8 1 80;\
9 1 90;10 1 100;11 1 110;12 1 120;13 1 130;14 1 140;15 1 150;16 2 0;
#job='pca';container='array';capacity=16;combiner='sum';
1 2;3 6;|0|mean 0 2;mean 1 4;cov 0 0 2/1;cov 0 1 4/1;cov 1 1 8/1;
1 x;|4|fault: input 1 grid number at 2;
1 2 3 4 5;|5|fault: outside 18;
1 1 1 1 1 1 1 1 1 1 1 1 1 1 1 1 1;|5|fault: outside 16;
|0|
5;|0|mean 0 5;cov 0 0 0/0;
-1;-2;|0|mean 0 -2;cov 0 0 1/1;
2147483647;-2147483647;|0|mean 0 0;cov 0 0 9223372028264841218/1;
2147483647;-2147483647;2147483647;-2147483647;|7|fault: over 0;
2147483647;-1000000000;-1000000000;-1000000000;|0|mean 0 -213129089;cov 0 0 7429989981099315459/3;
2147483647;-2147483647;-2147483647;-2147483647;|7|fault: over 0;
#job='pca';container='hash';capacity=16;combiner='sum';
1 2 3;4 -5 6;7 8 -9;|0|mean 0 4;mean 1 1;mean 2 0;cov 0 0 18/2;cov 0 1 18/2;cov 0 2 -36/2;cov 1 1 86/2;cov 1 2 -96/2;cov 2 2 126/2;
1 2 3 4 5;|0|mean 0 1;mean 1 2;mean 2 3;mean 3 4;mean 4 5;cov 0 0 0/0;cov 0 1 0/0;cov 0 2 0/0;cov 0 3 0/0;cov 0 4 0/0;cov 1 1 0/0;\
cov 1 2 0/0;cov 1 3 0/0;cov 1 4 0/0;cov 2 2 0/0;cov 2 3 0/0;cov 2 4 0/0;cov 3 3 0/0;cov 3 4 0/0;cov 4 4 0/0;
";

const SHARED_ARRAY: &str = "\
#job='fold_lines';container='common';capacity=16;combiner='once';keys='numbers';
3 7;3 7;|6|fault: twice 3;
3 7;3 7;99 1;|5|fault: outside 99;
3 7;3 7;x;99 1;|4|fault: input 1 malformed at 8;
3 7;5 -1;4 0;|0|3 7;4 0;5 -1;
15 9223372036854775807;0 -9223372036854775807;|0|0 -9223372036854775807;15 9223372036854775807;
|0|
#job='fold_lines';container='common';capacity=65536;combiner='once';keys='numbers';chunk=1;queue='ranges';
65535 1;7 2;8 3;9 4;0 5;1 6;2 7;3 8;4 9;|0|0 5;1 6;2 7;3 8;4 9;7 2;8 3;9 4;65535 1;
9 1;7 2;8 3;7 4;0 5;8 6;2 7;3 8;4 9;|6|fault: twice 7;
#job='matrix_product';container='common';capacity=16;combiner='once';
1 2;3 4;&5 6;7 8;|0|0 19;1 22;2 43;3 50;
2147483647 2147483647 2147483647;&2147483647;2147483647;2147483647;|7|fault: over 0;
2147483647 2147483647;&2147483647;2147483647;|0|0 9223372028264841218;
1;1;1;1;1;&1 1 1 1;|5|fault: outside 16;
1 2;&1;|4|fault: input 2 shape;
&|0|
#job='word_count';container='common';capacity=1024;combiner='sum';
a|3|fault: job pairing;
";

// The text of a field: its marks stand for bytes that a line of the table can't have.
fn plain(alloc: Global, field: &str) -> Result<String, Memory> {
    let text = field.replace(alloc, ';', "\n")?;
    Ok(text.replace(alloc, '~', "\r")?)
}

// Whether the case of this line comes out so with this many workers.
fn holds<R: Threads + Sync>(
    rt: &R,
    alloc: Global,
    job: &str,
    case: &str,
    workers: &str,
) -> Result<bool, Memory> {
    let Some((inputs, rest)) = case.split_once('|') else {
        return Ok(false);
    };
    let Some((code, wanted)) = rest.split_once('|') else {
        return Ok(false);
    };
    let wanted = plain(alloc, wanted)?;
    let inputs = plain(alloc, inputs)?;
    let gate = NotingGate::new(0);
    let (status, out, err) = match inputs.as_str().split_once('&') {
        Some((one, two)) => {
            let words = ["mapred", "--workers", workers, "W", "in", "two"];
            ran_on(
                rt,
                alloc,
                job,
                (one.as_bytes(), two.as_bytes()),
                &words,
                &gate,
            )?
        }
        None => {
            let words = ["mapred", "--workers", workers, "W", "in"];
            ran(rt, alloc, job, inputs.as_str(), &words, &gate)?
        }
    };
    let (held, other) = if code == "0" { (out, err) } else { (err, out) };
    let answers = Ok(status.code()) == code.parse::<u8>();
    Ok(answers && held.bytes() == wanted.as_bytes() && other.bytes().is_empty())
}

// Whether the case comes out so with each of these numbers of workers.
fn always_holds<R: Threads + Sync>(
    rt: &R,
    alloc: Global,
    job: &str,
    case: &str,
    counts: &[&str],
) -> Result<bool, Memory> {
    for workers in counts {
        if !holds(rt, alloc, job, case, workers)? {
            return Ok(false);
        }
    }
    Ok(true)
}

// The first case of a table that doesn't come out as it says with each of these numbers of workers.
fn first_wrong<'a, R: Threads + Sync>(
    rt: &R,
    alloc: Global,
    table: &'a str,
    counts: &[&str],
) -> Result<Option<&'a str>, Memory> {
    let mut job = String::new(alloc);
    for line in table.lines() {
        if let Some(file) = line.strip_prefix('#') {
            let lines = plain(alloc, file)?;
            job = format!(in alloc; "version = 1\n{lines}")?;
        } else if !always_holds(rt, alloc, job.as_str(), line, counts)? {
            return Ok(Some(line));
        }
    }
    Ok(None)
}

#[test]
fn jobs_over_lines(rt: HostRuntime) -> Result<(), Fail> {
    let wrong = first_wrong(&rt, rt.alloc(), LINE_JOBS, &["1", "2", "4", "32"])?;
    assert!(rt; wrong.is_none(), "{wrong:?}");
    Ok(())
}

#[test]
fn jobs_over_grids(rt: HostRuntime) -> Result<(), Fail> {
    let wrong = first_wrong(&rt, rt.alloc(), GRID_JOBS, &["1", "4"])?;
    assert!(rt; wrong.is_none(), "{wrong:?}");
    Ok(())
}

#[test]
fn jobs_over_the_array_of_all_workers(rt: HostRuntime) -> Result<(), Fail> {
    let wrong = first_wrong(&rt, rt.alloc(), SHARED_ARRAY, &["1", "3", "4"])?;
    assert!(rt; wrong.is_none(), "{wrong:?}");
    Ok(())
}

#[test]
fn jobs_of_several_rounds(rt: HostRuntime) -> Result<(), Fail> {
    let wrong = first_wrong(&rt, rt.alloc(), ROUND_JOBS, &["1", "4"])?;
    assert!(rt; wrong.is_none(), "{wrong:?}");
    Ok(())
}

// A bitmap of one pixel: blue 1, green 2, red 255, and a byte of padding.
const PIXEL: [u8; 58] = [
    0x42, 0x4d, 0x3a, 0, 0, 0, 0, 0, 0, 0, 0x36, 0, 0, 0, 0x28, 0, 0, 0, 1, 0, 0, 0, 1, 0, 0, 0, 1,
    0, 0x18, 0, 0, 0, 0, 0, 4, 0, 0, 0, 0, 0, 0, 0, 0, 0, 0, 0, 0, 0, 0, 0, 0, 0, 0, 0, 1, 2, 255,
    0,
];

#[test]
fn pixels_of_a_bitmap(rt: HostRuntime) -> Result<(), Fail> {
    let alloc = rt.alloc();
    let cases: [(u32, &[u8], Status, &str); 3] = [
        (768, &PIXEL, Status::Done, "1 1\n258 1\n767 1\n"),
        (
            768,
            &PIXEL[..57],
            Status::Input,
            "fault: input 1 bitmap pixels\n",
        ),
        (256, &PIXEL, Status::Outside, "fault: outside 258\n"),
    ];
    for (capacity, input, wanted, text) in cases {
        let job = format!(in alloc;
            "version = 1\njob = \"histogram\"\ncontainer = \"array\"\ncapacity = {capacity}\ncombiner = \"sum\"\n"
        )?;
        let words = ["mapred", "W", "in"];
        let gate = NotingGate::new(0);
        let (status, out, err) = ran_on(&rt, alloc, job.as_str(), (input, b""), &words, &gate)?;
        assert!(rt; status == wanted, "{text}");
        let held = if status == Status::Done { out } else { err };
        assert!(rt; held.bytes() == text.as_bytes(), "{text}");
    }
    Ok(())
}
