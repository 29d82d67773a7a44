//! The default rows of codecs, which are taken in and out together.
ghost use Rattle.std.specs.Prelude.{◌≡◌, ◌++◌, ◌∷◌, [], false, IfOk, OnOk, OnErr, IsOk, length};
ghost use Rattle.str0m_formats.specs.declared.codec.Codec.{Codec};
ghost use Rattle.str0m_formats.specs.round.Claimed.{AllTypesDistinct};
ghost use Rattle.str0m_formats.specs.row.DefaultRows.{default_rows, static_rows, rows_except, AreDefault, Enables, usual_rows};
ghost use Rattle.str0m_formats.specs.row.PayloadParams.{types};

use crate::codec::Codec;
use crate::format::format_params::FormatParams;
use crate::row::codec_config::CodecConfig;
use crate::row::default_row::{
    amr_wb_row, audio_row, bare_video_row, default_h265_row, default_h266_row, h264_rows, opus_row,
    red_if, vp9_row,
};
use crate::row::payload_params::PayloadParams;
use std::alloc::{AllocError, Global};
use str0m_values::Pt;

impl CodecConfig {
    /// A configuration with the default rows of Opus without RED, VP8, H264, H265, VP9 and AV1, in
    /// this order, whose redundant audio reaches back to the packet before. The only error is that
    /// memory was refused.
    pub fn new_with_defaults(alloc: Global) -> Result<CodecConfig, AllocError>
        ensures rows { IfOk result (λ config. config.params.items ≡ usual_rows) }
        ensures thirteen { IfOk result (λ config. length config.params.items ≡ 13) }
        ensures distances { IfOk result (λ config. config.red_distances ≡ 1 ∷ []) }
        ensures default { IfOk result (λ config. AreDefault config.params.items) }
        ensures distinct { IfOk result (λ config. AllTypesDistinct (types config.params.items)) }
    {
        let mut config = CodecConfig::empty(alloc);
        config.enable_opus(true, false)?;
        config.enable_vp8(true)?;
        config.enable_h264(true)?;
        config.enable_h265(true)?;
        config.enable_vp9(true)?;
        config.enable_av1(true)?;
        Ok(config)
    }

    /// Takes out all rows of the codec, and puts these last.
    fn put(&mut self, codec: Codec, rows: &[PayloadParams]) -> Result<(), AllocError>
        ensures ok { OnOk result (self.new.params.items ≡ rows_except codec self.old.params.items ++ rows.now) }
        ensures err { OnErr result (self.new ≡ self.old) }
        ensures none { length rows.now ≡ 0 → IsOk result }
        ensures distances { self.new.red_distances ≡ self.old.red_distances }
    {
        // The room comes first, so that want of it changes nothing.
        self.make_room(rows.len())?;
        self.params.retain(|row| row.spec().codec != codec);
        self.params.extend_from_slice(rows)
    }

    /// Takes out all rows of the codec, and puts its row under its static type last, with this RED.
    fn put_static(&mut self, codec: Codec, red: Option<Pt>) -> Result<(), AllocError>
        ensures ok { OnOk result (self.new.params.items ≡ rows_except codec self.old.params.items ++ static_rows codec red) }
        ensures err { OnErr result (self.new ≡ self.old) }
        ensures distances { self.new.red_distances ≡ self.old.red_distances }
    {
        match codec.static_type() {
            Some((pt, rate)) => {
                let row = audio_row(codec, pt, rate, None, FormatParams::default());
                self.put(codec, &[row.with_red(red)])
            }
            None => self.put(codec, &[]),
        }
    }

    /// Takes out all rows of the codec, and puts its default rows last.
    fn put_defaults(&mut self, codec: Codec, use_red: bool) -> Result<(), AllocError>
        ensures ok { OnOk result (self.new.params.items ≡ rows_except codec self.old.params.items ++ default_rows codec use_red) }
        ensures err { OnErr result (self.new ≡ self.old) }
        ensures distances { self.new.red_distances ≡ self.old.red_distances }
    {
        match codec {
            Codec::Opus => self.put(codec, &[opus_row(use_red)]),
            Codec::PCMU => self.put_static(codec, red_if(use_red, 61)),
            Codec::PCMA => self.put_static(codec, red_if(use_red, 60)),
            Codec::G722 => self.put_static(codec, red_if(use_red, 62)),
            Codec::CN => self.put_static(codec, None),
            Codec::AmrWb => self.put(codec, &[amr_wb_row()]),
            Codec::Vp8 => self.put(codec, &[bare_video_row(codec, 96, 97)]),
            Codec::H264 => self.put(codec, &h264_rows()),
            Codec::H265 => self.put(codec, &[default_h265_row()]),
            Codec::H266 => self.put(codec, &[default_h266_row()]),
            Codec::Vp9 => self.put(codec, &[vp9_row(98, 99, 0), vp9_row(100, 101, 2)]),
            Codec::Av1 => self.put(codec, &[bare_video_row(codec, 45, 46)]),
            _ => self.put(codec, &[]),
        }
    }

    /// Takes out all rows of the codec and, where it is enabled, puts its default rows last.
    fn enable(&mut self, codec: Codec, enabled: bool, use_red: bool) -> Result<(), AllocError>
        ensures { Enables codec enabled use_red self.old self.new result }
    {
        if enabled {
            self.put_defaults(codec, use_red)
        } else {
            self.put(codec, &[])
        }
    }

    /// Enables or disables PCMU: payload type 0 at 8 kHz, with RED 61 where `use_red` asks for it.
    ///
    /// All rows of the codec are taken out; where it is enabled, its default rows come last. The only
    /// error is that memory was refused, which changes nothing; without `enabled` there is none.
    pub fn enable_pcmu(&mut self, enabled: bool, use_red: bool) -> Result<(), AllocError>
        ensures { Enables Codec.PCMU enabled use_red self.old self.new result }
    {
        self.enable(Codec::PCMU, enabled, use_red)
    }

    /// Enables or disables PCMA: payload type 8 at 8 kHz, with RED 60 where `use_red` asks for it.
    ///
    /// All rows of the codec are taken out; where it is enabled, its default rows come last. The only
    /// error is that memory was refused, which changes nothing; without `enabled` there is none.
    pub fn enable_pcma(&mut self, enabled: bool, use_red: bool) -> Result<(), AllocError>
        ensures { Enables Codec.PCMA enabled use_red self.old self.new result }
    {
        self.enable(Codec::PCMA, enabled, use_red)
    }

    /// Enables or disables G722: payload type 9 at 16 kHz, with RED 62 where `use_red` asks for it. In
    /// RTP its clock rate is 8 kHz (RFC 3551, section 4.5.2).
    ///
    /// All rows of the codec are taken out; where it is enabled, its default rows come last. The only
    /// error is that memory was refused, which changes nothing; without `enabled` there is none.
    pub fn enable_g722(&mut self, enabled: bool, use_red: bool) -> Result<(), AllocError>
        ensures { Enables Codec.G722 enabled use_red self.old self.new result }
    {
        self.enable(Codec::G722, enabled, use_red)
    }

    /// Enables or disables Opus: payload type 111 at 48 kHz, two channels, packets of at least 10 ms and
    /// in-band FEC, with RED 63 where `use_red` asks for it (RFC 7587, section 7).
    ///
    /// All rows of the codec are taken out; where it is enabled, its default rows come last. The only
    /// error is that memory was refused, which changes nothing; without `enabled` there is none.
    pub fn enable_opus(&mut self, enabled: bool, use_red: bool) -> Result<(), AllocError>
        ensures { Enables Codec.Opus enabled use_red self.old self.new result }
    {
        self.enable(Codec::Opus, enabled, use_red)
    }

    /// Enables or disables comfort noise: payload type 13 at 8 kHz (RFC 3389). Other rates need rows of
    /// their own, by `add_config`.
    ///
    /// All rows of the codec are taken out; where it is enabled, its default rows come last. The only
    /// error is that memory was refused, which changes nothing; without `enabled` there is none.
    pub fn enable_comfort_noise(&mut self, enabled: bool) -> Result<(), AllocError>
        ensures { Enables Codec.CN enabled false self.old self.new result }
    {
        self.enable(Codec::CN, enabled, false)
    }

    /// Enables or disables AMR-WB: payload type 122 at 16 kHz, one channel, aligned to bytes (RFC 4867,
    /// section 8.2).
    ///
    /// All rows of the codec are taken out; where it is enabled, its default rows come last. The only
    /// error is that memory was refused, which changes nothing; without `enabled` there is none.
    pub fn enable_amr_wb(&mut self, enabled: bool) -> Result<(), AllocError>
        ensures { Enables Codec.AmrWb enabled false self.old self.new result }
    {
        self.enable(Codec::AmrWb, enabled, false)
    }

    /// Enables or disables VP8: payload type 96 with RTX 97, at 90 kHz (RFC 7741).
    ///
    /// All rows of the codec are taken out; where it is enabled, its default rows come last. The only
    /// error is that memory was refused, which changes nothing; without `enabled` there is none.
    pub fn enable_vp8(&mut self, enabled: bool) -> Result<(), AllocError>
        ensures { Enables Codec.Vp8 enabled false self.old self.new result }
    {
        self.enable(Codec::Vp8, enabled, false)
    }

    /// Enables or disables H264: seven rows at 90 kHz, of four profiles at level 3.1 and of both
    /// packetization modes (RFC 6184, section 8.1).
    ///
    /// All rows of the codec are taken out; where it is enabled, its default rows come last. The only
    /// error is that memory was refused, which changes nothing; without `enabled` there is none.
    pub fn enable_h264(&mut self, enabled: bool) -> Result<(), AllocError>
        ensures { Enables Codec.H264 enabled false self.old self.new result }
    {
        self.enable(Codec::H264, enabled, false)
    }

    /// Enables or disables H265: payload type 102 with RTX 103, at 90 kHz, of Main profile, Main tier and
    /// level 6 (RFC 7798, section 7.1).
    ///
    /// All rows of the codec are taken out; where it is enabled, its default rows come last. The only
    /// error is that memory was refused, which changes nothing; without `enabled` there is none.
    pub fn enable_h265(&mut self, enabled: bool) -> Result<(), AllocError>
        ensures { Enables Codec.H265 enabled false self.old self.new result }
    {
        self.enable(Codec::H265, enabled, false)
    }

    /// Enables or disables H266: payload type 104 with RTX 105, at 90 kHz, of Main 10 profile, Main tier
    /// and level 6 (RFC 9328, section 7.2).
    ///
    /// All rows of the codec are taken out; where it is enabled, its default rows come last. The only
    /// error is that memory was refused, which changes nothing; without `enabled` there is none.
    pub fn enable_h266(&mut self, enabled: bool) -> Result<(), AllocError>
        ensures { Enables Codec.H266 enabled false self.old self.new result }
    {
        self.enable(Codec::H266, enabled, false)
    }

    /// Enables or disables VP9: payload types 98 with RTX 99 of profile 0, and 100 with RTX 101 of
    /// profile 2, at 90 kHz (RFC 9628, section 6).
    ///
    /// All rows of the codec are taken out; where it is enabled, its default rows come last. The only
    /// error is that memory was refused, which changes nothing; without `enabled` there is none.
    pub fn enable_vp9(&mut self, enabled: bool) -> Result<(), AllocError>
        ensures { Enables Codec.Vp9 enabled false self.old self.new result }
    {
        self.enable(Codec::Vp9, enabled, false)
    }

    /// Enables or disables AV1: payload type 45 with RTX 46, at 90 kHz.
    ///
    /// All rows of the codec are taken out; where it is enabled, its default rows come last. The only
    /// error is that memory was refused, which changes nothing; without `enabled` there is none.
    pub fn enable_av1(&mut self, enabled: bool) -> Result<(), AllocError>
        ensures { Enables Codec.Av1 enabled false self.old self.new result }
    {
        self.enable(Codec::Av1, enabled, false)
    }
}
