//! The app before its code is put in.

ghost use Rattle.std.specs.Prelude.{◌≡◌, ◌<◌, ◌^◌, IfOk, length};
ghost use Rattle.std.specs.Map.{keys_of};
ghost use Rattle.std.specs.List.Sorted.{IsStrictlySortedBy};
ghost use Rattle.app_link.specs.Frame.{IsFrame};
ghost use Rattle.link_hierarchy.specs.Settled.{AllSettled};
ghost use Rattle.link_listing.specs.Components.{Fit, providers_of};
ghost use Rattle.link_listing.specs.Orders.{triple_order};

use crate::keys::keys_of;
use app_model::{App, Component, Layouts, Manifest};
use link_hierarchy::{Outers, filled_classes};
use link_listing::{Classes, Fields, names_copied, providers_of};
use std::alloc::Global;
use vet_base::{Memory, Seq};

fn fields_in_order(fields: &Fields) -> usize
    ensures order { IsStrictlySortedBy triple_order (keys_of fields.now.entries) }
{
    fields.len()
}

/// What the app has beside its DEX files.
#[derive(Clone, Copy)]
pub struct Papers<'a> {
    pub manifest: &'a Manifest,
    pub layouts: &'a Layouts,
}

/// The app without its statics and methods.
pub fn frame_of(
    alloc: Global,
    classes: Classes,
    outers: &Outers,
    fields: &Fields,
    components: Vec<Component>,
    papers: &Papers<'_>,
) -> Result<App, Memory>
    requires settled { AllSettled classes.entries outers.now.entries }
    requires few_classes { length classes.entries < 2 ^ 32 }
    requires few_fields { length fields.now.entries < 4294967295 }
    requires fit { Fit classes.entries components.items }
    requires few_components { length components.items < 2 ^ 32 }
    requires few_clicks { length papers.now.layouts.now.clicks < 2 ^ 32 }
    requires few_providers { length (providers_of papers.now.manifest.now) < 2 ^ 32 }
    requires few_layout_classes { length papers.now.layouts.now.classes < 2 ^ 32 }
    ensures frame { IfOk result (λ app. IsFrame classes.entries fields.now.entries app) }
    ensures components { IfOk result (λ app. app.components ≡ components.items) }
    ensures clicks { IfOk result (λ app. app.clicks ≡ papers.now.layouts.now.clicks) }
    ensures providers { IfOk result (λ app. app.providers ≡ providers_of papers.now.manifest.now) }
    ensures layout_classes { IfOk result (λ app. app.layout_classes ≡ papers.now.layouts.now.classes) }
{
    let _fields = fields_in_order(fields);
    let list = filled_classes(alloc, classes, outers)?;
    let keys = keys_of(alloc, fields)?;
    let clicks = names_copied(alloc, papers.layouts.clicks.as_slice())?;
    let providers = providers_of(alloc, papers.manifest)?;
    let layout_classes = names_copied(alloc, papers.layouts.classes.as_slice())?;
    Ok(App {
        classes: Seq::from_vec(list),
        methods: Seq::new(alloc),
        keys,
        statics: Seq::new(alloc),
        components: Seq::from_vec(components),
        clicks,
        providers,
        layout_classes,
    })
}
