ghost use Rattle.std.specs.Prelude.{◌≡◌, []};
ghost use Rattle.made_apps.specs.Forms.{manifest_text};
ghost use Rattle.made_apps.specs.Lists.{lists_text};

/// The manifest of a generated app: the package `gen` of one DEX file, with one activity.
#[tactic(auto, unfolding(crate::specs::Forms::manifest_text))]
pub fn manifest_text() -> &'static [u8]
    ensures { result.now ≡ manifest_text }
{
    b"package = \"gen\"\ndex_files = 1\n\n[[component]]\nkind = \"activity\"\nclass = \"Lgen/Main;\"\n"
}

/// The layouts of a generated app: none.
pub fn layouts_text() -> &'static [u8]
    ensures { result.now ≡ [] }
{
    b""
}

/// The declaration of a generated app: nothing is declared.
pub fn declaration_text() -> &'static [u8]
    ensures { result.now ≡ [] }
{
    b""
}

/// The lists that a generated app is judged by: the sample lists, with the greatest number of rows.
pub static SAMPLE_LISTS: &[u8] =
    b"# What the office says of the library: which values are personal data, where they must not go
# undeclared, and what a library call does with its arguments.
rows = 4000000
categories = [\"device_id\", \"sms\", \"network\", \"log\"]

[[class]]
name = \"Ljava/lang/Object;\"
default = \"blank\"

[[class]]
name = \"Ljava/lang/String;\"
parents = [\"Ljava/lang/Object;\"]
default = \"joined\"

[[class]]
name = \"Ljava/lang/StringBuilder;\"
parents = [\"Ljava/lang/Object;\"]
default = \"mixed\"

[[class]]
name = \"Ljava/lang/reflect/Method;\"
parents = [\"Ljava/lang/Object;\"]
default = \"blank\"

[[class]]
name = \"Landroid/content/Context;\"
parents = [\"Ljava/lang/Object;\"]
default = \"blank\"

[[class]]
name = \"Landroid/app/Activity;\"
parents = [\"Landroid/content/Context;\"]
default = \"blank\"

[[class]]
name = \"Landroid/app/Service;\"
parents = [\"Landroid/content/Context;\"]
default = \"blank\"

[[class]]
name = \"Landroid/app/Application;\"
parents = [\"Landroid/content/Context;\"]
default = \"blank\"

[[class]]
name = \"Landroid/content/BroadcastReceiver;\"
parents = [\"Ljava/lang/Object;\"]
default = \"blank\"

[[class]]
name = \"Landroid/view/View;\"
parents = [\"Ljava/lang/Object;\"]
default = \"blank\"

[[class]]
name = \"Landroid/content/Intent;\"
parents = [\"Ljava/lang/Object;\"]
default = \"blank\"

[[class]]
name = \"Landroid/content/SharedPreferences;\"
parents = [\"Ljava/lang/Object;\"]
default = \"blank\"

[[class]]
name = \"Landroid/content/SharedPreferences$Editor;\"
parents = [\"Ljava/lang/Object;\"]
default = \"blank\"

[[class]]
name = \"Landroid/telephony/TelephonyManager;\"
parents = [\"Ljava/lang/Object;\"]
default = \"blank\"

[[class]]
name = \"Landroid/telephony/SmsManager;\"
parents = [\"Ljava/lang/Object;\"]
default = \"blank\"

[[class]]
name = \"Lvendor/Device;\"
parents = [\"Ljava/lang/Object;\"]

[[class]]
name = \"Lvendor/Net;\"
parents = [\"Ljava/lang/Object;\"]

[[shared]]
name = \"prefs\"
class = \"Landroid/content/SharedPreferences;\"

[[shared]]
name = \"own_prefs\"
class = \"Landroid/content/SharedPreferences;\"

[[method]]
class = \"Ljava/lang/Object;\"
name = \"clone\"
proto = \"()Ljava/lang/Object;\"
result = \"same\"
from = [0]

[[method]]
class = \"Ljava/lang/StringBuilder;\"
name = \"append\"
proto = \"(Ljava/lang/String;)Ljava/lang/StringBuilder;\"
result = \"same\"
from = [0]
puts = [[1, 0]]

[[method]]
class = \"Ljava/lang/StringBuilder;\"
name = \"toString\"
proto = \"()Ljava/lang/String;\"
result = \"joined\"
from = [0]

[[method]]
class = \"Ljava/lang/reflect/Method;\"
name = \"invoke\"
proto = \"(Ljava/lang/Object;[Ljava/lang/Object;)Ljava/lang/Object;\"
reflective = true

[[method]]
class = \"Landroid/content/Context;\"
name = \"getSharedPreferences\"
proto = \"(Ljava/lang/String;I)Landroid/content/SharedPreferences;\"
result = \"shared\"
shared = \"prefs\"

[[method]]
class = \"Landroid/app/Activity;\"
name = \"getPreferences\"
proto = \"(I)Landroid/content/SharedPreferences;\"
result = \"shared\"
shared = \"own_prefs\"

[[method]]
class = \"Landroid/content/SharedPreferences;\"
name = \"edit\"
proto = \"()Landroid/content/SharedPreferences$Editor;\"
result = \"same\"
from = [0]

[[method]]
class = \"Landroid/content/SharedPreferences;\"
name = \"getString\"
proto = \"(Ljava/lang/String;Ljava/lang/String;)Ljava/lang/String;\"
result = \"taken\"
from = [0]

[[method]]
class = \"Landroid/content/SharedPreferences$Editor;\"
name = \"putString\"
proto = \"(Ljava/lang/String;Ljava/lang/String;)Landroid/content/SharedPreferences$Editor;\"
result = \"same\"
from = [0]
puts = [[2, 0]]

[[method]]
class = \"Landroid/telephony/TelephonyManager;\"
name = \"getDeviceId\"
proto = \"()Ljava/lang/String;\"
source = \"device_id\"

[[method]]
class = \"Landroid/telephony/SmsManager;\"
name = \"sendTextMessage\"
proto = \"(Ljava/lang/String;Ljava/lang/String;Ljava/lang/String;Landroid/app/PendingIntent;Landroid/app/PendingIntent;)V\"
sink = \"sms\"
positions = [3]

[[method]]
class = \"Lvendor/Device;\"
name = \"id\"
proto = \"()Ljava/lang/String;\"
static = true
source = \"device_id\"

[[method]]
class = \"Lvendor/Net;\"
name = \"post\"
proto = \"(Ljava/lang/Object;)V\"
static = true
sink = \"network\"
positions = [0]
";

/// The text of the lists that a generated app is judged by.
#[tactic(auto, unfolding(crate::specs::Lists::lists_text))]
pub fn lists_text() -> &'static [u8]
    ensures { result.now ≡ lists_text }
{
    SAMPLE_LISTS
}
