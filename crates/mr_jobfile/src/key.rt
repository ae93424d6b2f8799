ghost use Rattle.std.specs.Prelude.{◌≡◌};
ghost use Rattle.mr_jobfile.specs.Keys.{key_text};

/// A key of the job file.
#[derive(Clone, Copy, Debug, PartialEq, Eq)]
pub enum JobKey {
    Version,
    Job,
    Container,
    Capacity,
    Combiner,
    Reducer,
    Keys,
    Queue,
    Partitions,
    Chunk,
    Clusters,
    Rounds,
    Patterns,
}

/// All keys, in the order in which faults are looked for.
pub const ALL_KEYS: [JobKey; 13] = [
    JobKey::Version,
    JobKey::Job,
    JobKey::Container,
    JobKey::Capacity,
    JobKey::Combiner,
    JobKey::Reducer,
    JobKey::Keys,
    JobKey::Queue,
    JobKey::Partitions,
    JobKey::Chunk,
    JobKey::Clusters,
    JobKey::Rounds,
    JobKey::Patterns,
];

/// The keys that every job file has, in the same order.
pub const NEEDED_KEYS: [JobKey; 5] = [
    JobKey::Version,
    JobKey::Job,
    JobKey::Container,
    JobKey::Capacity,
    JobKey::Combiner,
];

impl JobKey {
    /// The key as it stands in the file.
    pub fn text(self) -> &'static str
        ensures { result.now ≡ key_text self }
    {
        match self {
            JobKey::Version => "version",
            JobKey::Job => "job",
            JobKey::Container => "container",
            JobKey::Capacity => "capacity",
            JobKey::Combiner => "combiner",
            JobKey::Reducer => "reducer",
            JobKey::Keys => "keys",
            JobKey::Queue => "queue",
            JobKey::Partitions => "partitions",
            JobKey::Chunk => "chunk",
            JobKey::Clusters => "clusters",
            JobKey::Rounds => "rounds",
            JobKey::Patterns => "patterns",
        }
    }
}
