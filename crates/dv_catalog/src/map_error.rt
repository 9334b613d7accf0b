use dv_text::{Memory, Text};

/// Why a mapping file is refused. A lower variant is answered before a higher one.
#[derive(Debug, PartialEq, Eq, Drop)]
pub enum MapError {
    /// The file is too long, or it is no TOML document.
    Text,
    /// A key is unknown or lacking, or its value has the wrong form.
    Shape { place: Text },
    /// Two entries of one kind have one name, or a link names a hub twice.
    NameTwice { name: Text },
    /// A hub that is named is not declared.
    UnknownHub { name: Text },
    /// A link that is named is not declared.
    UnknownLink { name: Text },
    /// The key columns of a feed do not fit its references.
    KeyCount { feed: Text },
    /// A link names fewer than two hubs.
    NoKey { name: Text },
    /// A column stands twice in a feed.
    ColumnTwice { feed: Text, name: Text },
    /// A feed has columns that tell rows apart, and no attributes.
    SubWithoutAttrs { feed: Text },
    /// The driving keys of a feed are not some of its link's hubs, and not all of them.
    DriverNotInLink { feed: Text },
    /// A feed has both driving keys and columns that tell rows apart.
    DriverWithSub { feed: Text },
    /// The feeds of a path are not joined by hubs.
    PathBroken { path: Text },
    /// There are more entries or columns than the limits let in.
    TooMany { kind: Text },
    /// A name has another form than 1 to 40 bytes of `a` to `z`, `0` to `9` and `_`.
    NameForm { name: Text },
    /// Memory ran out.
    Memory,
}

impl From<Memory> for MapError {
    ghost use Rattle.std.specs.Prelude.{◌≡◌};
    ghost use Rattle.dv_catalog.specs.declared.map_error.MapError.TheVariants as variants;

    ghost from_gives = { λ _ e. e ≡ variants.Memory };

    fn from(_error: Memory) -> MapError {
        MapError::Memory
    }
}
