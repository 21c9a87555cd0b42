// How lines are written.
ghost use Rattle.std.specs.Prelude.{◌≡◌};
ghost use Rattle.check_lines.specs.Lines.{format_named, is_array, opening, closing};

// A document of SARIF up to its results.
const SARIF_OPENING: &str =
    r#"{"version":"2.1.0","$schema":"https://json.schemastore.org/sarif-2.1.0.json","runs":[{"tool":{"driver":{"name":"protols"}},"columnKind":"utf16CodeUnits","results":["#;

/// How the lines of a check are written.
#[derive(Clone, Copy, Debug, PartialEq, Eq)]
pub enum Format {
    /// `path:line:column: number words`, with the path below its folder.
    Plain,
    /// `folder/path:line:column: error: words [number]`, with `info` in the place of `error` for an information: editors jump to such lines.
    Gnu,
    /// A workflow command of GitHub's build service, `error` or `notice`: `::error file=folder/path,line=1,col=1::number words`.
    Github,
    /// A JSON object: the folder, the path below it, where the diagnostic begins and ends, its number, its severity and its words.
    Json,
    /// One document of SARIF 2.1.0, whose results are the diagnostics.
    Sarif,
}

impl Format {
    /// The format with a name, which is that of its variant in small letters; `None` if no format has it.
    pub fn named(name: &str) -> Option<Format>
        ensures { result ≡ format_named name.now }
    {
        match name {
            "plain" => Some(Format::Plain),
            "gnu" => Some(Format::Gnu),
            "github" => Some(Format::Github),
            "json" => Some(Format::Json),
            "sarif" => Some(Format::Sarif),
            _ => None,
        }
    }

    /// Whether the lines are the items of one array, so that the first of them does without the comma before it.
    pub fn is_array(self) -> bool
        ensures { result ≡ is_array self }
    {
        matches!(self, Format::Sarif)
    }

    /// What stands before all lines.
    pub fn opening(self) -> &'static str
        ensures { result.now ≡ opening self }
    {
        match self {
            Format::Sarif => SARIF_OPENING,
            _ => "",
        }
    }

    /// What stands behind all lines.
    pub fn closing(self) -> &'static str
        ensures { result.now ≡ closing self }
    {
        match self {
            Format::Sarif => "]}]}\n",
            _ => "",
        }
    }
}
