//! The options of NODE.
ghost use Rattle.std.specs.Prelude.{◌≡◌, count_by};
ghost use Rattle.token_grammar.specs.Gives.{Gives};
ghost use Rattle.token_grammar.specs.Forms.{built};
ghost use Rattle.script_read.specs.Forms as spec;

use crate::meanings::measure_in;
use crate::words::{Measure, Setting, Settings};
use dtx_values::{EXTENTS_LIMIT, LINK_LIMIT, STRENGTH_LIMIT, USUAL_EXTENTS, USUAL_LINKS};
use std::alloc::Global;
use token_grammar::{ReadErr, Repeated, Token, many, take_between};

/// The commit point strength of a node whose command names none.
const USUAL_STRENGTH: u8 = 1;

fn take_strength(tokens: &[Token]) -> Result<(Setting, &[Token]), ReadErr>
    ensures { Gives (λ x. (x.0, x.1.now)) result ((spec.setting_form Measure.Strength).read tokens.now) }
{
    let (strength, rest) = take_between(tokens, 0, u32::from(STRENGTH_LIMIT))?;
    Ok((Setting::Strength(strength as u8), rest))
}

fn take_links(tokens: &[Token]) -> Result<(Setting, &[Token]), ReadErr>
    ensures { Gives (λ x. (x.0, x.1.now)) result ((spec.setting_form Measure.Links).read tokens.now) }
{
    let (links, rest) = take_between(tokens, 1, LINK_LIMIT)?;
    Ok((Setting::Links(links), rest))
}

fn take_undo(tokens: &[Token]) -> Result<(Setting, &[Token]), ReadErr>
    ensures { Gives (λ x. (x.0, x.1.now)) result ((spec.setting_form Measure.Undo).read tokens.now) }
{
    let (undo, rest) = take_between(tokens, 1, EXTENTS_LIMIT)?;
    Ok((Setting::Undo(undo), rest))
}

fn take_setting_of(measure: Measure, tokens: &[Token]) -> Result<(Setting, &[Token]), ReadErr>
    ensures { Gives (λ x. (x.0, x.1.now)) result ((spec.setting_form measure).read tokens.now) }
{
    match measure {
        Measure::Strength => take_strength(tokens),
        Measure::Links => take_links(tokens),
        Measure::Undo => take_undo(tokens),
    }
}

impl Repeated for Setting {
    type Item = Setting;

    ghost starts = { spec.is_setting };

    ghost grammar = { spec.setting_grammar };

    fn is_next(tokens: &[Token]) -> bool {
        match tokens {
            [first, ..] => measure_in(first).is_some(),
            [] => false,
        }
    }

    #[tactic(auto, unfolding(crate::specs::Forms::setting_grammar))]
    fn take(_: Global, tokens: &[Token]) -> Result<(Setting, &[Token]), ReadErr> {
        match tokens {
            [first, rest @ ..] => match measure_in(first) {
                Some(measure) => take_setting_of(measure, rest),
                None => Err(ReadErr::Bad),
            },
            [] => Err(ReadErr::Bad),
        }
    }
}

fn strengths(settings: &[Setting]) -> usize
    ensures { result ≡ count_by spec.is_strength settings.now }
{
    settings
        .iter()
        .filter(|setting| matches!(setting, Setting::Strength(_)))
        .count()
}

fn links(settings: &[Setting]) -> usize
    ensures { result ≡ count_by spec.is_links settings.now }
{
    settings
        .iter()
        .filter(|setting| matches!(setting, Setting::Links(_)))
        .count()
}

fn undos(settings: &[Setting]) -> usize
    ensures { result ≡ count_by spec.is_undo settings.now }
{
    settings
        .iter()
        .filter(|setting| matches!(setting, Setting::Undo(_)))
        .count()
}

fn are_once(settings: &[Setting]) -> bool
    ensures { result ≡ spec.are_once settings.now }
{
    strengths(settings) <= 1 && links(settings) <= 1 && undos(settings) <= 1
}

/// The options of NODE, each at most once.
pub(crate) fn take_settings(
    alloc: Global,
    tokens: &[Token],
) -> Result<(Vec<Setting>, &[Token]), ReadErr>
    ensures { Gives (λ x. (x.0.items, x.1.now)) result (spec.settings.read tokens.now) }
{
    let (settings, rest) = many::<Setting>(alloc, tokens)?;
    if !are_once(&settings) {
        return Err(ReadErr::Bad);
    }
    Ok((settings, rest))
}

fn with_setting(settings: Settings, setting: Setting) -> Settings
    ensures { result ≡ spec.with_setting settings setting }
{
    let Settings {
        strength,
        links,
        undo,
    } = settings;
    match setting {
        Setting::Strength(strength) => Settings {
            strength,
            links,
            undo,
        },
        Setting::Links(links) => Settings {
            strength,
            links,
            undo,
        },
        Setting::Undo(undo) => Settings {
            strength,
            links,
            undo,
        },
    }
}

/// What these options set, and what is usual of the rest.
pub(crate) fn with_settings(settings: &[Setting]) -> Settings
    ensures { result ≡ spec.with_settings spec.usual settings.now }
{
    let mut set = Settings {
        strength: USUAL_STRENGTH,
        links: USUAL_LINKS,
        undo: USUAL_EXTENTS,
    };
    let mut rest = settings;
    while let [first, others @ ..] = rest {
        set = with_setting(set, *first);
        rest = others;
    }
    set
}
