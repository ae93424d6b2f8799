/// Calls a function at the const parameter that a capacity is: `at_capacity!(capacity, call<A, B>(x, y))` is `call::<A, B, 1024>(x, y)`
/// where the capacity is 1024. The capacity is one of the table `CAPACITIES`; the arm for any other number is never reached, which the
/// check proves.
#[macro_export]
macro_rules! at_capacity {
    ($capacity:expr, $call:ident<$($parameter:ty),*>($($argument:expr),*)) => {
        match $capacity {
            16 => $call::<$($parameter,)* 16>($($argument),*),
            64 => $call::<$($parameter,)* 64>($($argument),*),
            256 => $call::<$($parameter,)* 256>($($argument),*),
            768 => $call::<$($parameter,)* 768>($($argument),*),
            1024 => $call::<$($parameter,)* 1024>($($argument),*),
            4096 => $call::<$($parameter,)* 4096>($($argument),*),
            16384 => $call::<$($parameter,)* 16384>($($argument),*),
            65536 => $call::<$($parameter,)* 65536>($($argument),*),
            _ => unreachable!(),
        }
    };
}

/// The type of a combiner, by the name of its kind: most have the same name. The caller brings the types of `mr_combine` in.
#[macro_export]
macro_rules! combiner_type {
    (MinMax) => { Both<Min, Max> };
    (SumCount) => { Both<Sum, Count> };
    ($name:ident) => { $name };
}

/// Calls a function at two lists of types, one behind the other: `called_at!(call [A, B] [C] (x, y))` is `call::<A, B, C>(x, y)`.
#[macro_export]
macro_rules! called_at {
    ($call:ident [$($first:ty),*] [$($second:ty),*] $arguments:tt) => {
        $call::<$($first,)* $($second),*> $arguments
    };
}

/// Calls a function at the type of the combiner that a job has and at the reducer of plain combiners:
/// `at_combiner!(combiner, { Sum, MinMax }, call[A, B](x, y))` is `call::<A, B, Both<Min, Max>, Plain>(x, y)` where the combiner is
/// `CombinerKind::MinMax`. The names are all combiners that the table `PAIRINGS` has for the job; the arm for any other is never reached,
/// which the check proves where the job's kind is known.
#[macro_export]
macro_rules! at_combiner {
    ($combiner:expr, { $($name:ident),* }, $call:ident $types:tt $arguments:tt) => {
        match $combiner {
            $(CombinerKind::$name => $crate::called_at!($call $types [$crate::combiner_type!($name), Plain] $arguments),)*
            _ => unreachable!(),
        }
    };
}

/// Calls a function at the combiner `Buffer` and the reducer that a job has beside it: `at_reducer!(reducer, { List, Distinct }, call[A](x,
/// y))` is `call::<A, Buffer, List>(x, y)` where the reducer is `Some(ReducerKind::List)`. Names and the last arm are as in `at_combiner!`.
#[macro_export]
macro_rules! at_reducer {
    ($reducer:expr, { $($name:ident),* }, $call:ident $types:tt $arguments:tt) => {
        match $reducer {
            $(Some(ReducerKind::$name) => $crate::called_at!($call $types [Buffer, $name] $arguments),)*
            _ => unreachable!(),
        }
    };
}

/// Calls one of some functions, by the container that a job has: `at_container!(container, { Hash => in_table, Array => in_array }, [C,
/// R](x, y))` is `in_array::<C, R>(x, y)` where the container is `ContainerKind::Array`. Names and the last arm are as in `at_combiner!`.
#[macro_export]
macro_rules! at_container {
    ($container:expr, { $($name:ident => $call:ident),* }, $types:tt $arguments:tt) => {
        match $container {
            $(ContainerKind::$name => $crate::called_at!($call $types [] $arguments),)*
            _ => unreachable!(),
        }
    };
}
