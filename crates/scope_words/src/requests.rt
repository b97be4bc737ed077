// What is asked for.
ghost use Rattle.std.specs.Prelude.{◌≡◌};
ghost use Rattle.scope_words.specs.Requests.{address_word, first_file, region_word, second_file, space_word};

/// How a picture is drawn.
#[derive(Clone, Copy, Debug, PartialEq, Eq)]
pub enum Style {
    /// As text for a terminal.
    Text,
    /// As a file of SVG.
    Svg,
}

/// What is asked of `mscope`: a command, and the names of files and other words that it is given. A file that is called `-` is the standard
/// input.
#[derive(Clone, Copy, Debug)]
pub enum Request<'a> {
    /// Why a region answers an address of a space.
    Why {
        script: &'a str,
        space: &'a str,
        /// A number as the script language spells it.
        addr: &'a str,
        region: Option<&'a str>,
    },
    /// What looks wrong in a script and in its map.
    Lint {
        script: &'a str,
    },
    /// How the views of two scripts differ.
    Diff {
        first: &'a str,
        second: &'a str,
    },
    /// The memory slots of each generation.
    Slots {
        script: &'a str,
    },
    /// A picture of a view.
    Draw {
        script: &'a str,
        space: &'a str,
        style: Style,
    },
    /// What is wrong with a script; or what a refusal or a cause means, where the word is the number or the word of one.
    Explain {
        what: &'a str,
    },
    /// A script of what QEMU's monitor printed of a machine.
    Import {
        /// What `info mtree -D` printed.
        tree: &'a str,
        /// What `info mtree -f` printed.
        flat: Option<&'a str>,
        /// The names of the spaces that the script is to have, with commas between them.
        spaces: Option<&'a str>,
    },
    /// Whether the spaces of a script show what QEMU's monitor printed.
    Check {
        script: &'a str,
        /// What `info mtree -f` printed.
        flat: &'a str,
    },
}

impl<'a> Request<'a> {
    /// The file that is read first; none where the request names no file.
    pub fn first_file(&self) -> &'a str
        ensures { result.now ≡ first_file self.now }
    {
        match self {
            Request::Why { script, .. } => script,
            Request::Lint { script } => script,
            Request::Diff { first, .. } => first,
            Request::Slots { script } => script,
            Request::Draw { script, .. } => script,
            Request::Explain { what } => what,
            Request::Import { tree, .. } => tree,
            Request::Check { script, .. } => script,
        }
    }

    /// The file that is read second; empty where there is none.
    pub fn second_file(&self) -> &'a str
        ensures { result.now ≡ second_file self.now }
    {
        match self {
            Request::Diff { second, .. } => second,
            Request::Import {
                flat: Some(flat),
                ..
            } => flat,
            Request::Check { flat, .. } => flat,
            _ => "",
        }
    }

    /// The name of the space that is asked for; empty where none is.
    pub fn space(&self) -> &'a str
        ensures { result.now ≡ space_word self.now }
    {
        match self {
            Request::Why { space, .. } => space,
            Request::Draw { space, .. } => space,
            _ => "",
        }
    }

    /// The name of the region that is asked for; empty where none is.
    pub fn region(&self) -> &'a str
        ensures { result.now ≡ region_word self.now }
    {
        match self {
            Request::Why {
                region: Some(region),
                ..
            } => region,
            _ => "",
        }
    }
    /// The word for the address that is asked for; empty where none is.
    pub fn address(&self) -> &'a str
        ensures { result.now ≡ address_word self.now }
    {
        match self {
            Request::Why { addr, .. } => addr,
            _ => "",
        }
    }
}
