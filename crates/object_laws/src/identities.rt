//! What an adapter says of itself.

ghost use Rattle.object_laws.specs.Identities.{IdentitiesAgree, OwnedBitSaysOwners};

/// ListIdentity and Get_Attributes_All agree: the identity item of a device that is described is its head, the address of the
/// device, exactly the bytes by which Get_Attributes_All of the Identity object is answered, and the state.
///
/// Volume 1, chapter 5, Identity object. Volume 2, chapter 2, ListIdentity.
pub fn identities_agree()
    ensures { IdentitiesAgree }
{}

/// The owned bit of the status word of the Identity object is 1 exactly if some output has an established exclusive owner. The law
/// holds of whole tables, where an output has at most one.
///
/// Volume 1, chapter 5, Identity object, attribute 5.
pub fn the_owned_bit_says_owners()
    ensures { OwnedBitSaysOwners }
{}
