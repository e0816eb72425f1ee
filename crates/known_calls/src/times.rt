//! How often something is read.
ghost use Rattle.std.specs.Prelude.{◌≡◌};
ghost use Rattle.known_calls.specs.KnownPlaces.{◌plus◌, is_read as read_somewhere, is_twice as read_twice};
ghost use Rattle.known_calls.specs.declared.times.Times.TheVariants.{Once};

/// At how many places something is read.
#[derive(Clone, Copy, Debug, PartialEq, Eq)]
pub enum Times {
    /// At none.
    Never,
    /// At one.
    Once,
    /// At two or more.
    More,
}

impl Times {
    /// At one place more.
    pub(crate) fn once_more(self) -> Times
        ensures is { result ≡ Once plus self }
    {
        match self {
            Times::Never => Times::Once,
            Times::Once => Times::More,
            Times::More => Times::More,
        }
    }

    /// Whether there is such a place.
    pub(crate) fn is_read(self) -> bool
        ensures is { result ≡ read_somewhere self }
    {
        match self {
            Times::Never => false,
            Times::Once => true,
            Times::More => true,
        }
    }

    /// Whether there are two or more.
    pub(crate) fn is_twice(self) -> bool
        ensures is { result ≡ read_twice self }
    {
        match self {
            Times::Never => false,
            Times::Once => false,
            Times::More => true,
        }
    }
}
