//! What an administrator's mask and the values' own permissions allow.

ghost use Rattle.std.specs.Prelude.{◌≡◌};
ghost use Rattle.std.specs.List.{list_any, list_all};
ghost use Rattle.hdl_value.specs.Permission.{mask_permits};
ghost use Rattle.hdl_msg.specs.Views.{operation_of, numbers_of, values_of};
ghost use Rattle.hdl_ops.specs.Proven.{add_needs, remove_needs, modify_needs, is_allowed, is_locked_at, is_locked};

use crate::asked_values::is_admin_at;
use hdl_msg::{Body, Numbers, Values};
use hdl_rows::value_with;
use hdl_value::{AdminMask, AdminPermission, CutValue, Permission, Value};

fn may_add(mask: AdminMask, new: &CutValue<'_>) -> bool
    ensures { result ≡ mask_permits mask.0 (add_needs new.now) }
{
    if new.is_admin() {
        mask.permits(AdminPermission::AddAdmin)
    } else {
        mask.permits(AdminPermission::AddValue)
    }
}

fn may_remove(mask: AdminMask, values: &[Value], index: u32) -> bool
    ensures { result ≡ mask_permits mask.0 (remove_needs values.now index) }
{
    if is_admin_at(values, index) {
        mask.permits(AdminPermission::RemoveAdmin)
    } else {
        mask.permits(AdminPermission::DeleteValue)
    }
}

fn may_modify(mask: AdminMask, values: &[Value], new: &CutValue<'_>) -> bool
    ensures { result ≡ mask_permits mask.0 (modify_needs values.now new.now) }
{
    if new.is_admin() || is_admin_at(values, new.index()) {
        mask.permits(AdminPermission::ModifyAdmin)
    } else {
        mask.permits(AdminPermission::ModifyValue)
    }
}

fn may_add_all(mask: AdminMask, mut news: Values<'_>) -> bool
    ensures { result ≡ list_all (λ n. mask_permits mask.0 (add_needs n)) (values_of news.entry) }
{
    news.all(|new| may_add(mask, &new))
}

fn may_remove_all(mask: AdminMask, values: &[Value], mut indexes: Numbers<'_>) -> bool
    ensures { result ≡ list_all (λ i. mask_permits mask.0 (remove_needs values.now i)) (numbers_of indexes.entry) }
{
    indexes.all(|index| may_remove(mask, values, index))
}

fn may_modify_all(mask: AdminMask, values: &[Value], mut news: Values<'_>) -> bool
    ensures { result ≡ list_all (λ n. mask_permits mask.0 (modify_needs values.now n)) (values_of news.entry) }
{
    news.all(|new| may_modify(mask, values, &new))
}

/// The mask has all permissions that the operation needs.
pub(crate) fn is_allowed(body: &Body<'_>, values: &[Value], mask: AdminMask) -> bool
    ensures { result ≡ is_allowed (operation_of body.now) values.now mask.0 }
{
    match body {
        Body::Resolution { .. } => mask.permits(AdminPermission::AuthorizedRead),
        Body::Create { .. } => mask.permits(AdminPermission::AddHandle),
        Body::Delete { .. } => mask.permits(AdminPermission::DeleteHandle),
        Body::Add { values: news, .. } => may_add_all(mask, *news),
        Body::Remove { indexes, .. } => may_remove_all(mask, values, *indexes),
        Body::Modify { values: news, .. } => may_modify_all(mask, values, *news),
        Body::List { .. } => mask.permits(AdminPermission::ListHandle),
        Body::Response { .. } => false,
        Body::SiteInfo { .. } => false,
        Body::Other { .. } => false,
    }
}

fn is_locked_at(values: &[Value], index: u32) -> bool
    ensures { result ≡ is_locked_at values.now index }
{
    match value_with(values, index) {
        Some(value) => !value.permits(Permission::AdminWrite),
        None => true,
    }
}

fn any_locked(values: &[Value], mut indexes: Numbers<'_>) -> bool
    ensures { result ≡ list_any (is_locked_at values.now) (numbers_of indexes.entry) }
{
    indexes.any(|index| is_locked_at(values, index))
}

fn any_locked_for(values: &[Value], mut news: Values<'_>) -> bool
    ensures { result ≡ list_any (λ n. is_locked_at values.now n.index) (values_of news.entry) }
{
    news.any(|new| is_locked_at(values, new.index()))
}

/// Administrators may not write a value that the operation names.
pub(crate) fn is_locked(body: &Body<'_>, values: &[Value]) -> bool
    ensures { result ≡ is_locked (operation_of body.now) values.now }
{
    match body {
        Body::Remove { indexes, .. } => any_locked(values, *indexes),
        Body::Modify { values: news, .. } => any_locked_for(values, *news),
        _ => false,
    }
}
