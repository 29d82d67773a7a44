//! What is done with a description.

ghost use Rattle.bench_calls.specs.Answers.{section_count_answer, text_length_answer};

use crate::answers::exchange_for_answers;
use crate::task::Task;
use std::alloc::AllocError;
use str0m_signal::{CodecConfig, MediaLine, NegotiationError, SdpError, SdpOffer};

/// Nothing but one byte, which is given back: who counts allocations sees by it where the reading has ended. Answers how many
/// sections there are.
pub(crate) struct MarkTask;

impl Task for MarkTask {
    ghost answer = { section_count_answer };

    fn run(offer: &SdpOffer) -> Result<usize, AllocError> {
        let sections = &offer.media_lines;
        let _mark = Box::new(*sections.allocator(), 0u8)?;
        Ok(sections.len())
    }
}

/// The rows of each section. Answers how many sections there are.
pub(crate) struct RowsTask;

impl Task for RowsTask {
    ghost answer = { section_count_answer };

    fn run(offer: &SdpOffer) -> Result<usize, AllocError> {
        for section in offer.media_lines.as_slice() {
            let _made = section.rtp_params()?;
        }
        Ok(offer.media_lines.len())
    }
}

/// The configuration with the default rows. Answers how many sections there are.
pub(crate) struct DefaultsTask;

impl Task for DefaultsTask {
    ghost answer = { section_count_answer };

    fn run(offer: &SdpOffer) -> Result<usize, AllocError> {
        let sections = &offer.media_lines;
        let _made = CodecConfig::new_with_defaults(*sections.allocator())?;
        Ok(sections.len())
    }
}

/// An exchange in which nothing is said. Answers how many sections there are.
pub(crate) struct ExchangeTask;

impl Task for ExchangeTask {
    ghost answer = { section_count_answer };

    fn run(offer: &SdpOffer) -> Result<usize, AllocError> {
        let sections = &offer.media_lines;
        let _made = exchange_for_answers(*sections.allocator())?;
        Ok(sections.len())
    }
}

/// A round with the rows of the section, where it is one of audio or video. That one is refused, other than for memory, is no fault.
fn run_round_of_task(config: &mut CodecConfig, section: &MediaLine) -> Result<(), AllocError> {
    if !section.typ.is_media() {
        return Ok(());
    }
    let rows = section.rtp_params()?;
    match config.update_params(rows.as_slice(), section.direction()) {
        Err(NegotiationError::Memory) => Err(AllocError),
        _ => Ok(()),
    }
}

/// Such a configuration, and a round with each section's rows. Answers how many sections there are.
pub(crate) struct RoundsTask;

impl Task for RoundsTask {
    ghost answer = { section_count_answer };

    fn run(offer: &SdpOffer) -> Result<usize, AllocError> {
        let sections = &offer.media_lines;
        let mut config = CodecConfig::new_with_defaults(*sections.allocator())?;
        for section in sections.as_slice() {
            run_round_of_task(&mut config, section)?;
        }
        Ok(sections.len())
    }
}

/// What is said of the sources of each section. Answers how many sections there are.
pub(crate) struct SourcesTask;

impl Task for SourcesTask {
    ghost answer = { section_count_answer };

    fn run(offer: &SdpOffer) -> Result<usize, AllocError> {
        for section in offer.media_lines.as_slice() {
            let _made = section.ssrc_info()?;
        }
        Ok(offer.media_lines.len())
    }
}

/// The candidates of the session and of the sections, each once, to the last. Answers how many sections there are.
pub(crate) struct CandidatesTask;

impl Task for CandidatesTask {
    ghost answer = { section_count_answer };

    fn run(offer: &SdpOffer) -> Result<usize, AllocError> {
        let _last = offer.ice_candidates()?.last();
        Ok(offer.media_lines.len())
    }
}

/// Whether the description contradicts itself is asked. Answers how many sections there are.
pub(crate) struct ConsistencyTask;

impl Task for ConsistencyTask {
    ghost answer = { section_count_answer };

    fn run(offer: &SdpOffer) -> Result<usize, AllocError> {
        match offer.assert_consistency() {
            Err(SdpError::Memory) => Err(AllocError),
            _ => Ok(offer.media_lines.len()),
        }
    }
}

/// The printed text. Answers how many bytes it has.
pub(crate) struct PrintTask;

impl Task for PrintTask {
    ghost answer = { text_length_answer };

    fn run(offer: &SdpOffer) -> Result<usize, AllocError> {
        let text = offer.to_sdp_string()?;
        Ok(text.len())
    }
}
