use mr_capacity::CombinerKind::{Buffer, Count, Min, MinMax, Once, Sum, VecSum};
use mr_capacity::ContainerKind::{Array, Common, Hash};
use mr_capacity::JobKind::{
    FoldLines, Histogram, InvertedIndex, KMeans, LinearRegression, MatrixProduct, Pca, StringMatch,
    WordCount,
};
use mr_capacity::KeyKind::{Bytes, Numbers};
use mr_capacity::ReducerKind::{Distinct, List, Median};
use mr_capacity::{COMBINER_NAMES, CombinerKind, JOB_NAMES, JobKind, named, pairing_allowed};

#[test]
fn names(rt: HostRuntime) {
    assert_eq!(rt; named(&JOB_NAMES, "kmeans"), Some(KMeans));
    assert_eq!(rt;
        named(&JOB_NAMES, "linear_regression"),
        Some(LinearRegression)
    );
    assert_eq!(rt;
        named(&COMBINER_NAMES, "sumcount"),
        Some(CombinerKind::SumCount)
    );
    for name in ["", "Sum", "su", "sums"] {
        assert_eq!(rt; named(&COMBINER_NAMES, name), None);
        assert!(rt; named::<JobKind>(&JOB_NAMES, name).is_none());
    }
}

#[test]
fn pairings(rt: HostRuntime) {
    let allowed = [
        (WordCount, Hash, Bytes, Count, None),
        (FoldLines, Hash, Bytes, MinMax, None),
        (FoldLines, Array, Numbers, Buffer, Some(Median)),
        (FoldLines, Common, Numbers, Once, None),
        (InvertedIndex, Hash, Bytes, Buffer, Some(Distinct)),
        (StringMatch, Array, Numbers, Count, None),
        (MatrixProduct, Common, Numbers, Once, None),
        (KMeans, Hash, Numbers, VecSum, None),
    ];
    for (job, container, keys, combiner, reducer) in allowed {
        assert!(rt; pairing_allowed(job, container, keys, combiner, reducer));
    }
    let refused = [
        (WordCount, Array, Bytes, Sum, None),
        (WordCount, Hash, Numbers, Sum, None),
        (WordCount, Hash, Bytes, Min, None),
        (FoldLines, Hash, Bytes, Buffer, None),
        (FoldLines, Hash, Bytes, Sum, Some(List)),
        (FoldLines, Array, Bytes, Sum, None),
        (FoldLines, Common, Numbers, Sum, None),
        (FoldLines, Hash, Numbers, Once, None),
        (InvertedIndex, Hash, Bytes, Buffer, Some(Median)),
        (InvertedIndex, Hash, Bytes, Sum, None),
        (Histogram, Common, Numbers, Once, None),
        (KMeans, Array, Numbers, Sum, None),
        (Pca, Array, Numbers, Count, None),
    ];
    for (job, container, keys, combiner, reducer) in refused {
        assert!(rt; !pairing_allowed(job, container, keys, combiner, reducer));
    }
}
