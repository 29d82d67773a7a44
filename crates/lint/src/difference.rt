//! What sets two rows of one codec apart.

use std::alloc::{AllocError, Global};
use str0m_formats::{CodecSpec, FormatParam, FormatParams, PayloadParams};
use str0m_values::Separator;
use str0m_values::cuts::before;

/// A parameter of a format, and its text.
#[derive(Drop)]
struct DifferenceParameter {
    text: String,
    param: FormatParam,
}

impl DifferenceParameter {
    fn key(&self) -> &str {
        before(self.text.as_str(), Separator::Equals)
    }
}

/// The parameters of a format, in the order in which they print.
fn difference_parameters(
    alloc: Global,
    format: FormatParams,
) -> Result<Vec<DifferenceParameter>, AllocError> {
    let mut all = Vec::new(alloc);
    let params = format.to_format_param(alloc)?;
    for param in &params {
        let text = param.to_string(alloc)?;
        let param = *param;
        all.push(DifferenceParameter { text, param })?;
    }
    Ok(all)
}

/// The parameter of a key.
fn difference_parameter_of_key<'a>(
    all: &'a [DifferenceParameter],
    key: &str,
) -> Option<&'a DifferenceParameter> {
    all.iter().find(|it| it.key() == key)
}

/// What a format says of a key, in quotes.
fn difference_said_of_key(
    alloc: Global,
    all: &[DifferenceParameter],
    key: &str,
) -> Result<String, AllocError> {
    match difference_parameter_of_key(all, key) {
        Some(it) => {
            let text = it.text.as_str();
            format!(in alloc; "`{text}`")
        }
        None => format!(in alloc; "no `{key}`"),
    }
}

/// How many channels a row has.
fn row_channels(alloc: Global, count: Option<u8>) -> Result<String, AllocError> {
    match count {
        Some(1) => String::from_str(alloc, "1 channel"),
        Some(count) => format!(in alloc; "{count} channels"),
        None => String::from_str(alloc, "no count of channels"),
    }
}

/// A row of this side and one of the other side, of the same codec, with what their formats say.
#[derive(Drop)]
pub(crate) struct RowDifference<'a> {
    ours: &'a PayloadParams,
    theirs: &'a PayloadParams,
    own: Vec<DifferenceParameter>,
    other: Vec<DifferenceParameter>,
}

impl<'a> RowDifference<'a> {
    pub(crate) fn of(
        alloc: Global,
        ours: &'a PayloadParams,
        theirs: &'a PayloadParams,
    ) -> Result<RowDifference<'a>, AllocError> {
        Ok(RowDifference {
            ours,
            theirs,
            own: difference_parameters(alloc, ours.spec().format)?,
            other: difference_parameters(alloc, theirs.spec().format)?,
        })
    }

    /// Whether our row doesn't fit one of these contents.
    fn is_unfit(&self, spec: CodecSpec) -> bool {
        let changed = PayloadParams::new(self.ours.pt(), None, spec);
        self.ours.match_score(&changed).is_none()
    }

    fn has_other_rate(&self) -> bool {
        self.ours.spec().clock_rate != self.theirs.spec().clock_rate
    }

    /// Whether the channels alone make the rows unfit.
    fn has_other_channels(&self) -> bool {
        let mut spec = self.ours.spec();
        spec.channels = self.theirs.spec().channels;
        self.is_unfit(spec)
    }

    /// The format of our row, but for what the other one says of a key.
    fn with_key(&self, key: &str) -> FormatParams {
        let mut format = FormatParams::default();
        for it in &self.own {
            if it.key() != key {
                format.set_param(&it.param);
            }
        }
        if let Some(it) = difference_parameter_of_key(self.other.as_slice(), key) {
            format.set_param(&it.param);
        }
        format
    }

    /// Whether a key alone makes the rows unfit.
    fn has_unfit(&self, key: &str) -> bool {
        let mut spec = self.ours.spec();
        spec.format = self.with_key(key);
        self.is_unfit(spec)
    }

    /// How many keys of a format alone make the rows unfit.
    fn unfit_count(&self, all: &[DifferenceParameter]) -> usize {
        all.iter().filter(|it| self.has_unfit(it.key())).count()
    }

    /// How far the rows are from each other: by their clock rates, channels, and keys.
    pub(crate) fn distance(&self) -> (bool, bool, usize) {
        let keys = self.unfit_count(self.own.as_slice());
        let more = self.unfit_count(self.other.as_slice());
        (
            self.has_other_rate(),
            self.has_other_channels(),
            keys.saturating_add(more),
        )
    }

    /// The first key of a format that alone makes the rows unfit.
    fn unfit_key<'b>(&self, all: &'b [DifferenceParameter]) -> Option<&'b str> {
        let found = all.iter().find(|it| self.has_unfit(it.key()))?;
        Some(found.key())
    }

    /// The first key of a format of which the rows say different things.
    fn other_key<'b>(&self, all: &'b [DifferenceParameter]) -> Option<&'b str> {
        let own = self.ours.spec().format;
        let found = all.iter().find(|it| self.with_key(it.key()) != own)?;
        Some(found.key())
    }

    /// The first key that alone makes the rows unfit, of our row before the other one; else the first of which they say different
    /// things.
    fn key(&self) -> Option<&str> {
        let (own, other) = (self.own.as_slice(), self.other.as_slice());
        if let Some(key) = self.unfit_key(own) {
            return Some(key);
        }
        if let Some(key) = self.unfit_key(other) {
            return Some(key);
        }
        match self.other_key(own) {
            Some(key) => Some(key),
            None => self.other_key(other),
        }
    }

    /// What the rows have, ours first, where they differ.
    fn sides(&self, alloc: Global) -> Result<(String, String), AllocError> {
        let (own, other) = (self.ours.spec(), self.theirs.spec());
        if self.has_other_rate() {
            let (rate, other) = (own.clock_rate, other.clock_rate);
            return Ok((
                format!(in alloc; "{rate} Hz")?,
                format!(in alloc; "{other} Hz")?,
            ));
        }
        if self.has_other_channels() {
            return Ok((
                row_channels(alloc, own.channels)?,
                row_channels(alloc, other.channels)?,
            ));
        }
        let key = self.key().unwrap_or("");
        Ok((
            difference_said_of_key(alloc, self.own.as_slice(), key)?,
            difference_said_of_key(alloc, self.other.as_slice(), key)?,
        ))
    }

    /// What sets the rows apart, as a finding says it.
    pub(crate) fn detail(&self, alloc: Global) -> Result<String, AllocError> {
        let pt = self.ours.pt();
        let (own, other) = self.sides(alloc)?;
        format!(in alloc; "row {pt} of this side has {own}, this one {other}")
    }
}

/// The row of the same codec that is nearest to a row of the other side, the first of several.
pub(crate) fn nearest_row<'a>(
    alloc: Global,
    rows: &'a [PayloadParams],
    theirs: &'a PayloadParams,
) -> Result<Option<RowDifference<'a>>, AllocError> {
    let mut best: Option<RowDifference<'a>> = None;
    for row in rows {
        if row.spec().codec == theirs.spec().codec {
            let pair = RowDifference::of(alloc, row, theirs)?;
            let is_nearer = match &best {
                Some(known) => pair.distance() < known.distance(),
                None => true,
            };
            if is_nearer {
                best = Some(pair);
            }
        }
    }
    Ok(best)
}
